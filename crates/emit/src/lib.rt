// The code of a call, written as instruction records into lists that are lent.
#![tactic(auto)]

mod body;
pub mod callee;
pub mod caller;
mod checks;
pub mod faults;
mod instructions;
mod places;
mod records;
mod saving;
mod side;
