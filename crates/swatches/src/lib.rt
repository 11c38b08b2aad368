// What the listing program writes for a terminal: its lines, each behind a swatch of its colour.
#![tactic(auto)]

mod listing;
pub mod text;
