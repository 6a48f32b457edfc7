// Vectors of at most so many values, in fixed memory.
#![tactic(auto)]

mod blank;
mod vec;

pub use blank::Blank;
pub use vec::{FixedVec, Full};
