// Descriptions: texts of stages, read into piles.
#![tactic(auto)]

pub mod description;
mod draft;
mod plan;
mod reading;
mod stages;
