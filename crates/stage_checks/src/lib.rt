// Tables of cases for the stages.
#![tactic(auto)]

#[cfg(test)]
mod placing;
