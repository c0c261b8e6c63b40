// Signatures: what one says, the line that writes it, and the reader of a line of a list.
#![tactic(auto)]

pub mod fault;
pub mod reading;
pub mod signature;
