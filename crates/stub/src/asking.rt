// One call of a service by a line of its list, with an empty body.
use described::pile::Pile;
use machine::Instruction;
use service::services::{Answered, Service};

// Where the stack pointer is at the start.
pub(crate) const STACK: usize = 32_768;

const MEMORY: usize = 65_536;

// The records of both sides, the registers and the memory of a call.
#[derive(Drop)]
pub(crate) struct Bench {
    pub(crate) caller: [Instruction; 512],
    pub(crate) callee: [Instruction; 512],
    registers: [u32; 32],
    pub(crate) memory: Vec<u8>,
}

impl Bench {
    pub(crate) fn new(rt: &HostRuntime) -> anyhow::Result<Bench> {
        let mut registers = [0; 32];
        registers[31] = 32_768;
        Ok(Bench {
            caller: [Instruction::Halt; 512],
            callee: [Instruction::Ret; 512],
            registers,
            memory: vec![in rt.alloc(); 0; MEMORY]?,
        })
    }

    pub(crate) fn call(
        &mut self,
        service: Service<Pile>,
        list: &[u8],
        line: u32,
        budget: usize,
    ) -> Answered<Pile> {
        service.call(
            list,
            line,
            &[],
            &mut self.caller,
            &mut self.callee,
            &mut self.registers,
            self.memory.as_mut_slice(),
            budget,
        )
    }
}

// How many lines a list has; what follows its last feed is one, if anything does.
pub(crate) fn count_lines(list: &[u8]) -> u32 {
    let closed = list.iter().filter(|b| **b == b'\n').count();
    let open = usize::from(!list.is_empty() && !list.ends_with(b"\n"));
    u32::try_from(closed.saturating_add(open)).unwrap_or(u32::MAX)
}
