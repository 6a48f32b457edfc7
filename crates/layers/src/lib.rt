// What items are put into, and what is laid over a source.
#![tactic(auto)]

pub mod cover;
mod port;
mod queue;
mod rows;

pub use port::Port;
pub use queue::Queue;
