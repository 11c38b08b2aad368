// The spans of bins, each packed into one number: its low, and 2^32 times what its high has more. One number read then
// gives both ends of a span, and one multiplication by a weight both bounds of a sum.
ghost use Rattle.std.specs.Prelude.{◌≡◌, length, replicate};
ghost use Rattle.grid.specs.Grid.{Accepted, Inside};
ghost use Rattle.table.specs.Sound.{squared_span, SpanBelow};
ghost use Rattle.table.specs.Spans.{packed_span, row_spans, filled_spans, SpanTable};

use grid::dimension::{Span, span_of};
use grid::place::Grid;

// A span in one number.
fn pack(s: Span) -> u64
    requires { SpanBelow 195075 s }
    ensures { result ≡ packed_span s }
{
    s.low + 4294967296 * (s.high - s.low)
}

// A low and a high, squared.
fn squared(s: Span) -> Span
    requires { SpanBelow 255 s }
    ensures { result ≡ squared_span s }
{
    Span {
        low: s.low * s.low,
        high: s.high * s.high,
    }
}

// What the bins of a row have in common: their spans in the first two dimensions, and the squares of both added.
#[derive(Clone, Copy)]
pub struct RowSpans {
    pub one: u64,
    pub two: u64,
    pub squares: u64,
}

// Those of a row.
pub fn row_spans(g: Grid, r: usize, gr: usize) -> RowSpans
    requires { Inside g r gr 0 }
    ensures { result ≡ row_spans g r gr }
{
    let s1 = span_of(g.shift1, r);
    let s2 = span_of(g.shift2, gr);
    RowSpans {
        one: pack(s1),
        two: pack(s2),
        squares: pack(squared(s1)) + pack(squared(s2)),
    }
}

// Fills a list with the spans of a grid's bins in the third dimension, each with its squares beside it. What is past the
// last bin stays.
pub fn fill_spans(spans: &mut [u64; 256], g: Grid)
    requires { Accepted g × (length spans.old ≡ 256) }
    ensures { spans.new ≡ filled_spans g spans.old }
{
    for b in 0..g.size3 {
        let s = span_of(g.shift3, b);
        let at = 2 * b;
        spans[at] = pack(s);
        spans[at + 1] = pack(squared(s));
    }
}

// The spans of a grid's bins in the third dimension: whoever tests a table finds them once.
#[derive(Drop)]
pub struct Spans {
    pub g: Grid,
    pub third: [u64; 256],
    ghost filled: { SpanTable g third },
}

impl Spans {
    // Those of a grid. What is past the last bin is 0.
    pub fn of(g: Grid) -> Spans
        requires { Accepted g }
        ensures grid { result.g ≡ g }
        ensures third { result.third ≡ filled_spans g (replicate 256 0) }
    {
        let mut third = [0u64; 256];
        fill_spans(&mut third, g);
        Spans { g, third }
    }
}
