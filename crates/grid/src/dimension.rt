// One dimension: its size chosen by cases, the bin of a component and the span of a bin.
ghost use Rattle.std.specs.Prelude.{◌≡◌, ◌<◌};
ghost use Rattle.grid.specs.Size.{shift_of, bin_of, span_of, InSize};

// The shift of a size, which is one of seven.
pub fn shift_of(size: usize) -> Option<u8>
    ensures { result ≡ shift_of size }
{
    match size {
        2 => Some(7),
        4 => Some(6),
        8 => Some(5),
        16 => Some(4),
        32 => Some(3),
        64 => Some(2),
        128 => Some(1),
        _ => None,
    }
}

// The bin of a component.
pub fn bin_of(shift: u8, component: u8) -> usize
    requires { shift < 8 }
    ensures { result ≡ bin_of shift component }
{
    (component >> shift) as usize
}

// The smallest and the largest value of a component that fall in a bin.
#[derive(Clone, Copy)]
pub struct Span {
    pub low: u64,
    pub high: u64,
}

pub fn span_of(shift: u8, bin: usize) -> Span
    requires { InSize shift bin }
    ensures { result ≡ span_of shift bin }
{
    let width = 1u64 << shift;
    let low = (bin as u64) * width;
    Span {
        low,
        high: low + (width - 1),
    }
}
