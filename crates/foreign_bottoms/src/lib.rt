// Bottoms that are none of ours, as a client of the interface would write them: one that refuses everything, and one that
// has two registers to give.
#![tactic(auto)]

pub mod never;
pub mod two_registers;
