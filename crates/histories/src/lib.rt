// Histories of allocations: what the types let come to one, what it is answered, and what holds of it ever after.
#![tactic(auto)]

pub mod events;
pub mod listeners;
pub mod plays;
