// Where the sums of boxes come from.
// From the moments of a table, or from its bins, added up each time.
#[derive(Clone, Copy)]
pub enum Source {
    Moments,
    Bins,
}
