// What mapping and painting a band of a frame have in common: its answer, and the look-up of a pixel's index.
#![tactic(auto)]

pub mod look_up;
pub mod number;

pub use look_up::LookUp;
pub use number::band_number;
