// A text that is put into a lent buffer, part by part and line by line.
ghost use Rattle.std.specs.Prelude.{◌≡◌, [], ◌∷◌, ◌+◌, ◌*◌, ◌%◌, ◌<◌, length};
ghost use Rattle.lines.specs.Text.{decimal_of, field_of, named_of, head_of, line_of, line_at, line_room};
ghost use Rattle.lines.specs.Writing.{Writes, HasRoom};

// A lent buffer, and the place that the next part is put to.
#[derive(Drop)]
pub struct Writer<'a> {
    pub out: &'a mut [u8],
    pub at: usize,
}

impl<'a> Writer<'a> {
    pub(crate) fn byte(&mut self, value: u8)
        requires { HasRoom self.old 1 }
        ensures { Writes self.old (value ∷ []) 1 self.new }
    {
        self.out[self.at] = value;
        self.at += 1;
    }

    // Some bytes.
    pub fn word(&mut self, bytes: &[u8])
        requires { HasRoom self.old (length bytes.now) }
        ensures { Writes self.old bytes.now (length bytes.now) self.new }
    {
        let end = self.at + bytes.len();
        self.out[self.at..end].copy_from_slice(bytes);
        self.at = end;
    }

    // The digits of a number, the front ones first.
    fn digits(&mut self, n: u64)
        requires { HasRoom self.old (length (decimal_of n)) }
        ensures { Writes self.old (decimal_of n) (length (decimal_of n)) self.new }
    {
        if n >= 10 {
            self.digits(n / 10);
        }
        self.byte(last_digit(n));
    }

    pub(crate) fn number(&mut self, n: u64)
        requires { HasRoom self.old 20 }
        ensures { Writes self.old (decimal_of n) 20 self.new }
    {
        self.digits(n);
    }

    // A number after a space.
    pub(crate) fn field(&mut self, n: u64)
        requires { HasRoom self.old 21 }
        ensures { Writes self.old (field_of n) 21 self.new }
    {
        self.byte(b' ');
        self.number(n);
    }

    // A number after its name.
    pub fn named(&mut self, name: &[u8], n: u64)
        requires { HasRoom self.old (length name.now + 20) }
        ensures { Writes self.old (named_of name.now n) (length name.now + 20) self.new }
    {
        self.word(name);
        self.number(n);
    }

    // The first line.
    pub fn head(&mut self, boxes: u64, total: u64, rounds: u64)
        requires { HasRoom self.old line_room }
        ensures { Writes self.old (head_of boxes total rounds) line_room self.new }
    {
        self.named(b"boxes ", boxes);
        self.named(b" total ", total);
        self.named(b" rounds ", rounds);
        self.byte(b'\n');
    }

    fn line(&mut self, index: u64, red: u8, green: u8, blue: u8, count: u32)
        requires { HasRoom self.old line_room }
        ensures { Writes self.old (line_of index red green blue count) line_room self.new }
    {
        self.number(index);
        self.field(u64::from(red));
        self.field(u64::from(green));
        self.field(u64::from(blue));
        self.field(u64::from(count));
        self.byte(b'\n');
    }

    // The line of box i.
    pub fn box_line(&mut self, i: usize, palette: &[u8], counts: &[u32])
        requires room { HasRoom self.old line_room }
        requires there { (3 * i + 2 < length palette.now) × (i < length counts.now) }
        ensures { Writes self.old (line_at palette.now counts.now i) line_room self.new }
    {
        let red = palette[3 * i];
        let green = palette[3 * i + 1];
        let blue = palette[3 * i + 2];
        self.line(i as u64, red, green, blue, counts[i]);
    }
}

// The last digit of a number.
fn last_digit(n: u64) -> u8
    ensures { result ≡ 48 + n % 10 }
{
    b'0' + (n % 10) as u8
}
