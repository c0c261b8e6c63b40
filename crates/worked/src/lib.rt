// Calls that were worked out by hand, and the piles that they are asked of.
#![tactic(auto)]

pub mod cases;
pub mod deliveries;
mod piles;
mod tables;
mod trial;
