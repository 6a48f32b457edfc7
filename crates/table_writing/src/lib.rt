// Writing checked tables.
#![tactic(auto)]

mod fields;
mod ops;
pub mod write;
mod writer;
