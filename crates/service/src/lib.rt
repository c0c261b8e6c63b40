// The stub call: one call more of a service that keeps both sides of a convention, its faults, and the line that one blames.
#![tactic(auto)]

pub mod culprits;
pub mod faults;
mod requests;
pub mod services;
