// A source and a layer that are made apart from the layers, and piles of them, over a log and over a port.
#![tactic(auto)]

pub mod named;
#[cfg(test)]
mod tests;
pub mod ticks;
