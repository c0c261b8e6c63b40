// One call from bench to core: the signature placed on both sides, both codes written, and the run.
#![tactic(auto)]

pub mod calls;
mod placing;
pub mod ran;
mod ranges;
pub mod sides;
pub mod standing;
