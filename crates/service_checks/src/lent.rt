// What is lent to a call.
use call::ran::Ran;
use conventions::reading::read;
use machine::Instruction;
use service::faults::Fault;
use service::services::{Answered, Service};
use stage::Stage;
use std::alloc::{AllocError, Global};

// What stands in both lists before.
const RECORD: Instruction = Instruction::Mov { d: 1, s: 2 };

// What stands in memory before.
const BYTE: u8 = 0x5A;

// Where the stack pointer is before.
pub(crate) const STACK: usize = 128;

#[derive(Drop)]
pub(crate) struct Lent {
    pub(crate) caller: Vec<Instruction>,
    pub(crate) callee: Vec<Instruction>,
    pub(crate) registers: [u32; 32],
    pub(crate) memory: Vec<u8>,
}

fn registers() -> [u32; 32] {
    let mut registers = [7; 32];
    registers[31] = 128;
    registers
}

impl Lent {
    // Lists of so many records each, and a memory of so many bytes.
    pub(crate) fn of(
        heap: Global,
        caller: usize,
        callee: usize,
        memory: usize,
    ) -> Result<Lent, AllocError> {
        Ok(Lent {
            caller: vec![in heap; RECORD; caller]?,
            callee: vec![in heap; RECORD; callee]?,
            registers: registers(),
            memory: vec![in heap; BYTE; memory]?,
        })
    }

    // With room enough for the calls here.
    pub(crate) fn new(heap: Global) -> Result<Lent, AllocError> {
        Lent::of(heap, 24, 24, 192)
    }

    pub(crate) fn call<P: Stage>(
        &mut self,
        service: Service<P>,
        list: &str,
        line: u32,
        body: &[Instruction],
    ) -> Answered<P> {
        service.call(
            list.as_bytes(),
            line,
            body,
            self.caller.as_mut_slice(),
            self.callee.as_mut_slice(),
            &mut self.registers,
            self.memory.as_mut_slice(),
            512,
        )
    }

    // The answer of a service of its own.
    pub(crate) fn call_once(
        &mut self,
        heap: Global,
        description: &str,
        list: &str,
        line: u32,
        body: &[Instruction],
    ) -> Result<Ran, Fault> {
        let service = read(description.as_bytes(), heap)?;
        let Answered {
            service: _service,
            answer,
        } = self.call(service, list, line, body);
        answer
    }

    // Whether lists, registers and memory are equal.
    pub(crate) fn is_as(&self, other: &Lent) -> bool {
        self.caller.as_slice() == other.caller.as_slice()
            && self.callee.as_slice() == other.callee.as_slice()
            && self.registers == other.registers
            && self.memory.as_slice() == other.memory.as_slice()
    }

    // Whether lists, registers and memory are as they were made.
    pub(crate) fn is_untouched(&self) -> bool {
        self.caller.iter().all(|record| *record == RECORD)
            && self.callee.iter().all(|record| *record == RECORD)
            && self.registers == registers()
            && self.memory.iter().all(|byte| *byte == BYTE)
    }
}
