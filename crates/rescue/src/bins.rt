// The bins of a damaged table, walked in place order: each is kept or cleared.
ghost use Rattle.std.specs.Prelude.{◌≡◌, ◌≤◌, length};
ghost use Rattle.grid.specs.Grid.{bins_of, place_of};
ghost use Rattle.table.specs.Table.{HasCell, view_of, written};
ghost use Rattle.table.specs.Layout.{TableOf};
ghost use Rattle.table.specs.Layouts.{Wide};
ghost use Rattle.table.specs.Sound.{limit, Row};
ghost use Rattle.rescue.specs.Rescue.{reason_for, rescued, reasons_of};
ghost use Rattle.rescue.specs.Inner.{told, with_weight, cleared, Onward};

use grid::place::{Grid, place};
use table::cell::ZEROS;
use table::sound::{LIMIT, keeps_bounds};
use table::spans::{Spans, row_spans};
use table::wide::{cell_at, put_at};

// Why a bin is cleared.
#[derive(Clone, Copy)]
enum Reason {
    Bounds,
    Total,
}

// The byte for a reason in the list that C lends, 0 where there is none.
fn told(reason: Option<Reason>) -> u8
    ensures { result ≡ told reason }
{
    match reason {
        None => 0,
        Some(Reason::Bounds) => 1,
        Some(Reason::Total) => 2,
    }
}

// Why a bin is cleared: by whether it keeps its bounds, and the total of the bins kept so far.
#[tactic(auto, unfolding(crate::specs::Rescue::reason_for))]
fn reason_for(keeps: bool, had: u64, weight: u64) -> Option<Reason>
    requires { had ≤ limit }
    ensures { told result ≡ reason_for limit keeps had weight }
{
    if !keeps {
        return Some(Reason::Bounds);
    }
    if LIMIT - had < weight {
        return Some(Reason::Total);
    }
    None
}

// Clears the bin at a place where there is a reason.
fn clear_for(table: &mut [u64], p: usize, reason: Option<Reason>)
    requires { HasCell table.old p }
    ensures { table.new ≡ cleared table.old p (told reason) }
{
    if reason.is_some() {
        put_at(table, p, ZEROS);
    }
}

// The total with a bin, which counts where there is no reason to clear it.
#[tactic(auto, using(crate::proofs::Walks::told_some, crate::proofs::Walks::told_none), unfolding(crate::specs::Inner::with_weight))]
fn with_weight(had: u64, weight: u64, reason: Option<Reason>) -> u64
    requires { with_weight had weight (told reason) ≤ limit }
    ensures { result ≡ with_weight had weight (told reason) }
{
    if reason.is_none() { had + weight } else { had }
}

// Walks one row of bins: the total of the bins kept so far.
fn walk_row(
    spans: &Spans,
    table: &mut [u64],
    reasons: &mut [u8],
    r: usize,
    gr: usize,
    had: u64,
) -> u64
    requires row { Row Wide spans.now.g table.old r gr had }
    requires list { length reasons.old ≡ bins_of spans.now.g }
    ensures { Onward limit spans.now.g (place_of spans.now.g r gr 0)
        (place_of spans.now.g r gr spans.now.g.size3) table.old
        reasons.old had table.new reasons.new result }
{
    let g = spans.g;
    let row = row_spans(g, r, gr);
    let start = place(g, r, gr, 0);
    let mut total = had;
    for b in 0..g.size3 {
        let p = start + b;
        let c = cell_at(table, p);
        let keeps = keeps_bounds(spans, row, r, gr, b, c);
        let why = reason_for(keeps, total, c.weight);
        reasons[p] = told(why);
        clear_for(table, p, why);
        total = with_weight(total, c.weight, why);
    }
    total
}

// Walks one plane of rows.
fn walk_plane(spans: &Spans, table: &mut [u64], reasons: &mut [u8], r: usize, had: u64) -> u64
    requires row { Row Wide spans.now.g table.old r 0 had }
    requires list { length reasons.old ≡ bins_of spans.now.g }
    ensures { Onward limit spans.now.g (place_of spans.now.g r 0 0)
        (place_of spans.now.g r spans.now.g.size2 0) table.old
        reasons.old had table.new reasons.new result }
{
    let mut total = had;
    for gr in 0..spans.g.size2 {
        total = walk_row(spans, table, reasons, r, gr, total);
    }
    total
}

// Walks all bins of a table.
pub(crate) fn walk(g: Grid, table: &mut [u64], reasons: &mut [u8])
    requires table { TableOf g table.old }
    requires list { length reasons.old ≡ bins_of g }
    ensures table { table.new ≡ written (bins_of g) (rescued limit g (view_of table.old)) }
    ensures reasons { reasons.new ≡ reasons_of limit g (view_of table.old) }
{
    let spans = Spans::of(g);
    let mut total = 0;
    for r in 0..g.size1 {
        total = walk_plane(&spans, table, reasons, r, total);
    }
}
