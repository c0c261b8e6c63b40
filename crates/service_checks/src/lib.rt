// The stub call, on cases that were worked out by hand.
#![tactic(auto)]

#[cfg(test)]
mod built_in;
#[cfg(test)]
mod deliveries;
#[cfg(test)]
mod faults;
#[cfg(test)]
mod foreign;
#[cfg(test)]
mod lent;
#[cfg(test)]
mod pasts;
