// The block: a stage that gives bytes of the stack.
#![tactic(auto)]

pub mod up;
