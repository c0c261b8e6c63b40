// Where values are put: registers and bytes of the block.
#![tactic(auto)]

pub mod pieces;
pub mod registers;
