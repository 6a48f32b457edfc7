// Checked tables: tables of streams by value, of which each keeps every rule.
#![tactic(auto)]

pub mod element;
mod gather;
pub mod gathered;
mod judge;
mod layered;
mod layers;
pub mod parts;
pub mod plan;
mod planning;
pub mod read;
mod rules;
pub mod table;
pub mod text;
