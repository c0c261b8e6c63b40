// Allocations as they stand: coding both sides of a call, and running it.
ghost use Rattle.std.specs.Prelude.{◌≡◌, None};
ghost use Rattle.call.specs.Calls.{fault_in, line_in, coding_fault_of, coding_fault, standing_of, world_of, CameOut};
ghost use Rattle.call.specs.Placing.{both_sides};
ghost use Rattle.call.specs.Standing.{DeliversAsItStands};

use crate::ran::Ran;
use crate::ranges::{know_bytes, read_numbers};
use crate::sides::Side;
use allocation::frozen::Frozen;
use call_faults::CallFault;
use emit::callee::{callee_code, callee_size};
use emit::caller::{caller_code, caller_size};
use machine::{Instruction, MEMORY_LIMIT, Machine, Program, RunFault};
use place::registers::RegisterSet;
use stage::Stage;

// How many records each list has, and how many bytes the memory.
#[derive(Clone, Copy, PartialEq, Eq, Debug)]
struct Room {
    caller: usize,
    callee: usize,
    memory: usize,
}

// Why the call would not be made, before anything is written.
fn check_call<A: Stage, B: Stage, C: Stage, D: Stage>(
    bench: &Side<Frozen<A>, Frozen<B>>,
    core: &Side<Frozen<C>, Frozen<D>>,
    kept: RegisterSet,
    body: &[Instruction],
    room: Room,
) -> Result<(), CallFault>
    ensures first_fault_of_caller_callee_or_memory { fault_in result ≡ coding_fault_of
        (both_sides A.Stage B.Stage C.Stage D.Stage bench.now core.now)
        kept.bits body.now room.caller room.callee room.memory }
    ensures no_pile_refuses { line_in result ≡ None }
{
    caller_size(&bench.arguments, &bench.results, kept, room.caller)?;
    callee_size(&core.arguments, &core.results, kept, body, room.callee)?;
    if room.memory > MEMORY_LIMIT {
        return Err(CallFault::Run(RunFault::MemoryTooLarge));
    }
    Ok(())
}

// Writes both codes and runs them from these registers, which then have what the run left; a refusal changes nothing.
fn code_and_run<A: Stage, B: Stage, C: Stage, D: Stage>(
    bench: &Side<Frozen<A>, Frozen<B>>,
    core: &Side<Frozen<C>, Frozen<D>>,
    kept: RegisterSet,
    body: &[Instruction],
    caller: &mut [Instruction],
    callee: &mut [Instruction],
    registers: &mut [u32; 32],
    memory: &mut [u8],
    budget: usize,
) -> Result<Ran, CallFault>
    ensures first_fault_of_caller_callee_or_memory { fault_in result ≡ coding_fault
        (standing_of A.Stage B.Stage C.Stage D.Stage bench.now core.now kept.bits body.now
        (world_of caller.old callee.old registers.old memory.old) budget) }
    ensures no_pile_refuses { line_in result ≡ None }
    ensures comes_out_by_the_rules { CameOut
        (standing_of A.Stage B.Stage C.Stage D.Stage bench.now core.now kept.bits body.now
        (world_of caller.old callee.old registers.old memory.old) budget)
        (world_of caller.new callee.new registers.new memory.new) result }
{
    let room = Room {
        caller: caller.len(),
        callee: callee.len(),
        memory: memory.len(),
    };
    check_call(bench, core, kept, body, room)?;
    let (caller_length, block) = caller_code(&bench.arguments, &bench.results, kept, caller)?;
    let (callee_length, frame) = callee_code(&core.arguments, &core.results, kept, body, callee)?;
    let mut machine = Machine::new(*registers);
    let (outcome, steps) = machine.run(memory, Program { caller, callee }, budget)?;
    *registers = machine.registers;
    Ok(Ran {
        caller_length,
        callee_length,
        block,
        frame,
        outcome,
        steps,
    })
}

// Codes and runs a call of the places that the four allocations hold, whatever was asked of them before. What is lent is
// lent one by one as by `call`.
pub fn call_as_it_stands<A: Stage, B: Stage, C: Stage, D: Stage>(
    bench: &Side<Frozen<A>, Frozen<B>>,
    core: &Side<Frozen<C>, Frozen<D>>,
    kept: RegisterSet,
    body: &[Instruction],
    caller: &mut [Instruction],
    callee: &mut [Instruction],
    registers: &mut [u32; 32],
    memory: &mut [u8],
    budget: usize,
) -> Result<Ran, CallFault>
    ensures first_fault_of_caller_callee_or_memory { fault_in result ≡ coding_fault
        (standing_of A.Stage B.Stage C.Stage D.Stage bench.now core.now kept.bits body.now
        (world_of caller.old callee.old registers.old memory.old) budget) }
    ensures no_pile_refuses { line_in result ≡ None }
    ensures comes_out_by_the_rules { CameOut
        (standing_of A.Stage B.Stage C.Stage D.Stage bench.now core.now kept.bits body.now
        (world_of caller.old callee.old registers.old memory.old) budget)
        (world_of caller.new callee.new registers.new memory.new) result }
    ensures what_both_sides_hold_is_delivered { DeliversAsItStands
        (standing_of A.Stage B.Stage C.Stage D.Stage bench.now core.now kept.bits body.now
        (world_of caller.old callee.old registers.old memory.old) budget)
        (world_of caller.new callee.new registers.new memory.new) result }
{
    know_bytes(memory);
    read_numbers(body);
    code_and_run(
        bench, core, kept, body, caller, callee, registers, memory, budget,
    )
}
