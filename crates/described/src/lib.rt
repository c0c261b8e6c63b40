// Piles that are read from a description: each stage knows its line, which its refusals carry.
#![tactic(auto)]

pub mod beside;
pub mod built_in;
pub mod making;
pub mod pile;
mod tree;
