// The banks: stages that give registers of their own.
#![tactic(auto)]

pub mod bank;
pub mod bits;
pub mod count;
pub mod register_list;
