// What a call answers that was run.
use machine::Outcome;

#[derive(Clone, Copy, PartialEq, Eq, Debug)]
pub struct Ran {
    pub caller_length: usize,
    pub callee_length: usize,
    // The stack bytes of the caller, and of the callee.
    pub block: u32,
    pub frame: u32,
    pub outcome: Outcome,
    pub steps: usize,
}
