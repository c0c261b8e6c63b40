// A pile in use: the places granted for one signature, open to more of them or frozen.
#![tactic(auto)]

pub mod answers;
pub mod asked;
pub mod faults;
pub mod frozen;
pub mod held;
pub mod opened;
pub mod shared;
mod wanted;
