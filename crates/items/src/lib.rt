// What a monitor is fed: items, the faults that end a list of them, and the interface of what gives them.
#![tactic(auto)]

pub mod cause;
pub mod feed;
pub mod item;
pub mod make;
pub mod source;
