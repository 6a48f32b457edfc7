// Tables of streams: their fields and operations, from bytes.
#![tactic(auto)]

pub mod field;
pub mod flaw;
mod front;
pub mod op;
pub mod program;
