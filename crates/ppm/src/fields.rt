// A field of a header: a gap and a number after it.
ghost use Rattle.std.specs.Prelude.{◌≡◌, false, ◌+◌, ◌-◌, ◌*◌, ◌≤◌, min, length, drop};
ghost use Rattle.ppm.specs.Header.{is_blank, is_line_end, is_digit, opens, in_gap, after_gap, has_blank};
ghost use Rattle.ppm.specs.Header.{value_from, after_number, field_of};
ghost use Rattle.ppm.specs.Inner.{most, blank_seen, behind, blank_gap, read_as};

// Whitespace.
#[tactic(auto, unfolding(crate::specs::Header::is_blank))]
pub fn is_blank(c: u8) -> bool
    ensures { result ≡ is_blank c }
{
    c == b' ' || c == b'\t' || is_line_end(c)
}

#[tactic(auto, unfolding(crate::specs::Header::is_line_end))]
fn is_line_end(c: u8) -> bool
    ensures { result ≡ is_line_end c }
{
    c == b'\r' || c == b'\n'
}

#[tactic(auto, unfolding(crate::specs::Header::is_digit))]
fn is_digit(c: u8) -> bool
    ensures { result ≡ is_digit c }
{
    b'0' <= c && c <= b'9'
}

// Whether a byte belongs to a gap, within a comment or not.
#[tactic(auto, unfolding(crate::specs::Header::in_gap))]
fn in_gap(within: bool, c: u8) -> bool
    ensures { result ≡ in_gap within c }
{
    within || is_blank(c) || c == b'#'
}

// Whether a comment is open after a byte.
#[tactic(auto, unfolding(crate::specs::Header::opens))]
fn opens_comment(within: bool, c: u8) -> bool
    ensures { result ≡ opens within c }
{
    !is_line_end(c) && (within || c == b'#')
}

// Whether whitespace that is no part of a comment was seen, a byte later.
#[tactic(auto, unfolding(crate::specs::Inner::blank_seen))]
fn blank_seen(blank: bool, within: bool, c: u8) -> bool
    ensures { result ≡ blank_seen blank within c }
{
    blank || !within && is_blank(c)
}

// The place behind the gap from a place on, where it has whitespace that is no part of a comment.
fn gap(file: &[u8], at: usize) -> Option<usize>
    requires { at ≤ length file.now }
    ensures { result ≡ blank_gap file.now (drop at file.now) }
{
    let mut within = false;
    let mut blank = false;
    for p in at..file.len() {
        let c = file[p];
        if !in_gap(within, c) {
            return blank.then_some(p);
        }
        blank = blank_seen(blank, within, c);
        within = opens_comment(within, c);
    }
    blank.then_some(file.len())
}

// A number: its value, kept at 65,536 where it is more, and the place behind it.
#[derive(Clone, Copy)]
pub struct Digits {
    pub value: usize,
    pub end: usize,
}

// A number with one digit more behind it.
fn longer(value: usize, c: u8) -> usize
    requires { (value ≤ most) × (48 ≤ c) × (c ≤ 57) }
    ensures { result ≡ min (10 * value + (c - 48)) most }
{
    let n = 10 * value + (c - 48) as usize;
    if n < 65536 { n } else { 65536 }
}

// The number from a place on.
fn number(file: &[u8], at: usize) -> Digits
    requires { at ≤ length file.now }
    ensures value { result.value ≡ min (value_from 0 (drop at file.now)) most }
    ensures end { result.end ≡ behind file.now (after_number (drop at file.now)) }
{
    let mut value = 0;
    for p in at..file.len() {
        let c = file[p];
        if !is_digit(c) {
            return Digits { value, end: p };
        }
        value = longer(value, c);
    }
    Digits {
        value,
        end: file.len(),
    }
}

// The field from a place on.
pub fn field(file: &[u8], at: usize) -> Option<Digits>
    requires { at ≤ length file.now }
    ensures { result ≡ read_as file.now (field_of (drop at file.now)) }
{
    let end = gap(file, at)?;
    if file.len() <= end || !is_digit(file[end]) {
        return None;
    }
    Some(number(file, end))
}
