// Pages of stages: what a line says, and the words that stages go by.
#![tactic(auto)]

pub mod faults;
pub mod lines;
pub mod table;
