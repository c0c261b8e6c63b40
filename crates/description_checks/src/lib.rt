// What is read from descriptions, on cases that were worked out by hand.
#![tactic(auto)]

#[cfg(test)]
mod faults;
#[cfg(test)]
mod made;
#[cfg(test)]
mod piles;
#[cfg(test)]
mod placing;
