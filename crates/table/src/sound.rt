// Soundness: each bin keeps its bounds, and all weights total at most the limit.
ghost use Rattle.std.specs.Prelude.{◌≡◌, ◌*◌, ◌≤◌, ◌&&◌, nat_le};
ghost use Rattle.grid.specs.Grid.{place_of, Inside};
ghost use Rattle.table.specs.Cell.{number_of};
ghost use Rattle.table.specs.Layout.{laid, laid_view, TableOfIn};
ghost use Rattle.table.specs.Sound.{limit, limit_of, between, in_bounds, sound_total, Row, SpanBelow};
ghost use Rattle.table.specs.Spans.{told_span, spans_of, row_spans};
ghost use Rattle.table.specs.Inner.{scanned};

use crate::cell::Cell;
use crate::layout::Layout;
use crate::rows::row_total;
use crate::spans::{RowSpans, Spans};
use grid::place::Grid;
use std::num::wrapping_sub_u64;

// The largest total of a table in the wide layout.
pub const LIMIT: u64 = 4294967295;

// And in the narrow one.
pub const NARROW_LIMIT: u64 = 16843008;

// Whether the sum of n values lies in its bounds, by the span of the values. A sum below n·low wraps to more than any
// difference of the bounds, so that one comparison does for both. Up to the narrow limit one multiplication gives both
// bounds: n times a byte stays below 2^32.
fn lies_between(span: u64, n: u64, sum: u64) -> bool
    requires { SpanBelow 255 (told_span span) × (n ≤ limit) }
    ensures { result ≡ between (told_span span) n sum }
{
    if n <= NARROW_LIMIT {
        let both = n * span;
        return wrapping_sub_u64(sum, both % 4294967296) <= both / 4294967296;
    }
    lies_far_between(span, n, sum)
}

// The same of a span of squares too, and of any weight within the limit, by two multiplications.
fn lies_far_between(span: u64, n: u64, sum: u64) -> bool
    requires { SpanBelow 195075 (told_span span) × (n ≤ limit) }
    ensures { result ≡ between (told_span span) n sum }
{
    wrapping_sub_u64(sum, n * (span % 4294967296)) <= n * (span / 4294967296)
}

// Whether all but the weight are zeros: together they have no bit. A test of each would be a branch more at each empty
// bin, of which most tables have many.
fn is_bare(c: Cell) -> bool
    ensures { result ≡ (nat_le c.sum1 0 && (nat_le c.sum2 0 && (nat_le c.sum3 0 && nat_le c.squares 0))) }
{
    c.sum1 | (c.sum2 | (c.sum3 | c.squares)) <= 0
}

// Whether a bin keeps its own bounds, with a weight that is not past the limit by itself: by the spans of its row and
// those of the third dimension. The contract alone names the bin's row.
pub fn keeps_bounds(spans: &Spans, row: RowSpans, r: usize, gr: usize, b: usize, c: Cell) -> bool
    requires inside { Inside spans.now.g r gr b }
    requires row { row ≡ row_spans spans.now.g r gr }
    ensures { result ≡ (nat_le c.weight limit && in_bounds (spans_of spans.now.g r gr b) (number_of c)) }
{
    let n = c.weight;
    if n == 0 {
        return is_bare(c);
    }
    if LIMIT < n {
        return false;
    }
    if !lies_between(row.one, n, c.sum1) {
        return false;
    }
    if !lies_between(row.two, n, c.sum2) {
        return false;
    }
    let at = 2 * b;
    if !lies_between(spans.third[at], n, c.sum3) {
        return false;
    }
    lies_far_between(row.squares + spans.third[at + 1], n, c.squares)
}

// The total with one plane of rows.
fn plane_total<L: Layout>(
    small: &[u32],
    large: &[u64],
    spans: &Spans,
    r: usize,
    had: u64,
) -> Option<u64>
    requires { Row L.layout spans.now.g (laid L.layout small.now large.now) r 0 had }
    ensures { result
        ≡ scanned (limit_of L.layout) spans.now.g (laid_view L.layout small.now large.now)
        (place_of spans.now.g r 0 0) (spans.now.g.size2 * spans.now.g.size3) had }
{
    let mut total = had;
    for gr in 0..spans.g.size2 {
        total = row_total::<L>(small, large, spans, r, gr, total)?;
    }
    Some(total)
}

// The total of a sound table, or that it is not sound.
pub fn sound_total<L: Layout>(small: &[u32], large: &[u64], g: Grid) -> Option<u64>
    requires { TableOfIn L.layout g (laid L.layout small.now large.now) }
    ensures { result
        ≡ sound_total (limit_of L.layout) g (laid_view L.layout small.now large.now) }
{
    let spans = Spans::of(g);
    let mut total = 0;
    for r in 0..g.size1 {
        total = plane_total::<L>(small, large, &spans, r, total)?;
    }
    Some(total)
}
