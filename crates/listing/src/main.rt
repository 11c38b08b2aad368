// Lists the palette of the colours on standard input: bare RGB triples or, where the program is started with the word
// `--ppm`, a PPM. This file reads and writes; what is decided of the input is the crate `inputs`, what is loaded and
// what is said of it `lines` and, for a terminal, `swatches`.
#![tactic(auto)]

ghost use Rattle.std.specs.Prelude.{◌≡◌, true, false, ◌+◌, ◌^◌, ◌≤◌, ◌<◌, length, take, IfOk};
ghost use Rattle.lines.specs.Reading.{progress, AllCame};
ghost use Rattle.inputs.specs.Frames.{Room, CameBehind};

use inputs::frames::{frame_number, to_front};
use inputs::looks::begins_with;
use lines::batches::{empty_table, load_batch};
use lines::text::text;
use ppm::header::{Header, read_header};
use std::env::{Env, FillError};
use std::io;
use std::io::Read;
use swatches::text::swatch_text;

// ---- Arguments

// Whether the program was started with this word among its arguments. A longer argument is none of the program's words.
fn has_argument(rt: &HostRuntime, word: &[u8]) -> bool {
    for i in 1..usize::MAX {
        let mut argument = [0; 16];
        match rt.arg(i, &mut argument) {
            Ok(filled) => {
                if &argument[..filled] == word {
                    return true;
                }
            }
            Err(FillError::TooLong) => (),
            Err(FillError::NotPresent) => return false,
        }
    }
    false
}

// ---- Writing

// Writes to standard error, piece by piece: where one cannot be written, the next is tried all the same. There is no
// place left to say so.
fn tell(rt: &HostRuntime, pieces: &[&str]) {
    for piece in pieces {
        let _ = rt.stderr().write_all(piece.as_bytes());
    }
}

fn complain(rt: &HostRuntime, message: &str) {
    tell(rt, &["listing: ", message, "\n"]);
}

fn write(rt: &HostRuntime, text: &[u8]) {
    if rt.stdout().write_all(text).is_err() {
        complain(rt, "standard output could not be written");
    }
}

// How files of other programs begin, and those of Netpbm that are no PPM of bytes: bitmaps, grey ones, text, and PAM.
const KINDS: [(&[u8], &str); 14] = [
    (b"\x89PNG\r\n\x1a\n", "a PNG"),
    (b"\xff\xd8\xff", "a JPEG"),
    (b"GIF8", "a GIF"),
    (b"BM", "a BMP"),
    (b"II*\x00", "a TIFF"),
    (b"MM\x00*", "a TIFF"),
    (b"RIFF", "a WebP"),
    (b"qoif", "a QOI"),
    (b"P1\n", "a PBM"),
    (b"P2\n", "a PGM"),
    (b"P3\n", "a PPM of text"),
    (b"P4\n", "a PBM"),
    (b"P5\n", "a PGM"),
    (b"P7\n", "a PAM"),
];

// Says which kind of file the input looks like, what becomes of it, and how its pixels are listed. It is a hint, since a
// file of triples may begin so too.
fn hint_of_kind(rt: &HostRuntime, bytes: &[u8], fate: &str) {
    for (word, kind) in KINDS {
        if begins_with(bytes, word) {
            tell(
                rt,
                &[
                    "listing: the input looks like ",
                    kind,
                    fate,
                    "; to list its pixels: magick FILE -depth 8 ppm:- | ./listing --ppm\n",
                ],
            );
        }
    }
}

// What is said of bare triples, which are listed all the same.
fn hint(rt: &HostRuntime, bytes: &[u8]) {
    hint_of_kind(rt, bytes, ", and is listed as bare RGB triples");
    match read_header(bytes) {
        Header::Malformed => (),
        Header::Maximum | Header::Image(_) => complain(
            rt,
            "the input looks like a PPM, and is listed as bare RGB triples: --ppm lists it as a PPM",
        ),
    }
}

// What is said of an input that was to be a PPM and is none, before it is refused.
fn hint_no_ppm(rt: &HostRuntime, bytes: &[u8]) {
    hint_of_kind(rt, bytes, ", and is no PPM");
    if bytes.len() == BATCH {
        complain(
            rt,
            "the header is no PPM's, or is longer than a batch, 49152 bytes",
        );
    }
}

// ---- Reading

// The bytes of a batch, 16,384 pixels.
const BATCH: usize = 49152;

// Reads behind the bytes that are filled until the batch is full or the input ends, so that only the last batch can
// split a pixel. Where a read fails, `filled` tells what came before.
fn fill(rt: &HostRuntime, space: &mut [u8], filled: &mut usize) -> io::Result<()>
    requires { filled.old ≤ length space.old }
    ensures fits { (filled.old ≤ filled.new) × (filled.new ≤ length space.new) }
    ensures kept { take filled.old space.new ≡ take filled.old space.old }
{
    while *filled < space.len() {
        let more = rt.stdin().read(&mut space[*filled..])?;
        if more == 0 {
            break;
        }
        *filled += more;
    }
    Ok(())
}

// The lowest refusal of the loads so far, 0 where there was none, how many bytes were loaded or refused, and whether
// there may be more to read.
#[derive(Clone, Copy)]
struct Progress {
    number: u8,
    bytes: u64,
    more: bool,
}

// Before the first batch.
const START: Progress = Progress {
    number: 0,
    bytes: 0,
    more: true,
};

// Loads the next batch, the bytes that are there in front of it. A batch that is not full is the last one.
fn load_next(
    rt: &HostRuntime,
    table: &mut [u64],
    space: &mut [u8],
    filled: &mut usize,
    had: Progress,
) -> io::Result<Progress>
    requires there { filled.old ≤ length space.old }
    requires room { Room space.old }
    requires few { had.bytes + 49152 < 2 ^ 64 }
    ensures fits { filled.new ≤ length space.new }
    ensures came { IfOk result (λ next. CameBehind (take filled.old space.old)
        (progress had.number table.old had.bytes)
        (progress next.number table.new next.bytes) next.more) }
    ensures few { IfOk result (λ next. next.bytes ≤ had.bytes + length space.old) }
{
    fill(rt, space, filled)?;
    let loaded = load_batch(table, space, *filled, had.number);
    Ok(Progress {
        number: loaded.number,
        bytes: had.bytes + *filled as u64,
        more: loaded.more,
    })
}

// Loads what is left of the input, past a refusal too, since stray bytes at its end give a lower answer than a total
// that is too large. A proved loop has to end, so it counts its turns, to a number that no run uses up.
fn load_rest(
    rt: &HostRuntime,
    table: &mut [u64],
    space: &mut [u8],
    begun: Progress,
) -> io::Result<Progress>
    requires room { Room space.old }
    requires more { begun.more ≡ true }
    requires few { begun.bytes ≤ 49152 }
    ensures { IfOk result (λ end. AllCame (progress begun.number table.old begun.bytes)
        (progress end.number table.new end.bytes) end.more) }
{
    let mut so_far = begun;
    for turn in 0..1099511627776u64 {
        if !so_far.more {
            break;
        }
        so_far = load_next(rt, table, space, &mut 0, so_far)?;
    }
    Ok(so_far)
}

// Loads bare triples: all of the input.
fn load_triples(rt: &HostRuntime, table: &mut [u64], space: &mut [u8]) -> io::Result<Progress>
    requires { Room space.old }
    ensures { IfOk result (λ end. AllCame (progress 0 table.old 0) (progress end.number table.new end.bytes)
        end.more) }
{
    let mut filled = 0;
    let first = load_next(rt, table, space, &mut filled, START);
    hint(rt, &space[..filled]);
    let first = first?;
    if !first.more {
        return Ok(first);
    }
    load_rest(rt, table, space, first)
}

// Loads the pixels of a PPM, of which some bytes are at the front of a batch.
fn load_pixels(
    rt: &HostRuntime,
    table: &mut [u64],
    space: &mut [u8],
    mut filled: usize,
) -> io::Result<Progress>
    requires there { filled ≤ length space.old }
    requires room { Room space.old }
{
    let first = load_next(rt, table, space, &mut filled, START)?;
    if !first.more {
        return Ok(first);
    }
    load_rest(rt, table, space, first)
}

// ---- Listing

// Writes the text for a table that was loaded with this lowest refusal, or for a read that failed, which is not the end
// of the input.
fn list(rt: &HostRuntime, table: &[u64], lowest: io::Result<u8>) {
    let Ok(lowest) = lowest else {
        complain(rt, "standard input could not be read");
        return;
    };
    let mut space = [0; 2752];
    let n = if has_argument(rt, b"--terminal") {
        swatch_text(table, lowest, &mut space)
    } else {
        text(table, lowest, &mut space)
    };
    write(rt, &space[..n]);
}

// Lists a PPM. Its header is read from the first batch, and the pixels behind it are moved to the front, so that the
// batches after it split no pixel. Where the header tells no image there is nothing to load.
fn list_frame(rt: &HostRuntime, table: &mut [u64], space: &mut [u8])
    requires { Room space.old }
{
    let mut filled = 0;
    let read = fill(rt, space, &mut filled);
    let bytes = &space[..filled];
    let header = read_header(bytes);
    let input = match header {
        Header::Image(frame) => {
            // A read that failed is tried again.
            let there = to_front(space, frame.pixels, filled);
            load_pixels(rt, table, space, there)
        }
        Header::Malformed => {
            hint_no_ppm(rt, bytes);
            read.map(|()| START)
        }
        // A maximum other than 255 is a PPM's, and has an answer of its own.
        Header::Maximum => read.map(|()| START),
    };
    let lowest = input.map(|input| frame_number(header, input.bytes, input.number));
    list(rt, table, lowest);
}

fn main(rt: HostRuntime) {
    let mut table = empty_table();
    let mut space = [0; BATCH];
    if has_argument(&rt, b"--ppm") {
        list_frame(&rt, &mut table, &mut space);
        return;
    }
    let input = load_triples(&rt, &mut table, &mut space);
    list(&rt, &table, input.map(|input| input.number));
}
