// The two sides of a call, and the routine that is called.
use allocation::asked::Asked;
use machine::Instruction;
use place::registers::RegisterSet;

// What a side has for its arguments, and for its results.
#[derive(Drop)]
pub struct Side<A, R> {
    pub arguments: A,
    pub results: R,
}

// The types of a routine, each with the alignment to place it at, the registers that it keeps, and its body.
#[derive(Clone, Copy, PartialEq, Eq, Debug)]
pub struct Routine<'a, 'r, 'b> {
    pub arguments: &'a [Asked],
    pub results: &'r [Asked],
    pub kept: RegisterSet,
    pub body: &'b [Instruction],
}
