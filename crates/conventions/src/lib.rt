// Conventions, read once for a service of both sides.
#![tactic(auto)]

pub mod reading;
