// The layers over two stages.
#![tactic(auto)]

pub mod choose;
pub mod over;
mod pair;
