// The total with one row of bins.
ghost use Rattle.std.specs.Prelude.{◌≡◌};
ghost use Rattle.grid.specs.Grid.{place_of};
ghost use Rattle.table.specs.Layout.{laid, laid_view};
ghost use Rattle.table.specs.Sound.{limit_of, Row};
ghost use Rattle.table.specs.Inner.{scanned};

use crate::layout::Layout;
use crate::sound::keeps_bounds;
use crate::spans::{Spans, row_spans};
use grid::place::place;

// The total with one row.
pub(crate) fn row_total<L: Layout>(
    small: &[u32],
    large: &[u64],
    spans: &Spans,
    r: usize,
    gr: usize,
    had: u64,
) -> Option<u64>
    requires { Row L.layout spans.now.g (laid L.layout small.now large.now) r gr had }
    ensures { result
        ≡ scanned (limit_of L.layout) spans.now.g (laid_view L.layout small.now large.now)
        (place_of spans.now.g r gr 0) spans.now.g.size3 had }
{
    let g = spans.g;
    let row = row_spans(g, r, gr);
    let start = place(g, r, gr, 0);
    let mut total = had;
    for b in 0..g.size3 {
        let c = L::cell(small, large, start + b);
        if !keeps_bounds(spans, row, r, gr, b, c) {
            return None;
        }
        total += c.weight;
    }
    if L::limit() < total {
        return None;
    }
    Some(total)
}
