// One call from bench to core, whatever came to either side before.
ghost use Rattle.std.specs.Prelude.{◌≡◌, List};
ghost use Rattle.std.specs.List.{FoldsTo};
ghost use Rattle.allocation.specs.States.{state};
ghost use Rattle.histories.specs.Heard.{Heard};
ghost use Rattle.call.specs.Astray.{setting_of_call, setting_of_call_again, unheard, NothingGoesAstray, OneEndForEachSetting};
ghost use Rattle.call.specs.Calls.{fault_in, line_in, first_of, coding_fault, standing_of, world_of, CameOut};
ghost use Rattle.call.specs.Placing.{placing_fault, placing_line, placement, placement_line, sides_of, both_sides};
ghost use Rattle.call.specs.Standing.{DeliversAsItStands};

use crate::placing::{open_side, place_all, reopen_side};
use crate::ran::Ran;
use crate::sides::{Routine, Side};
use crate::standing::call_as_it_stands;
use allocation::faults::PlacementFault;
use allocation::frozen::Frozen;
use allocation::opened::Open;
use call_faults::CallFault;
use histories::events::UsedPile;
use histories::listeners::Listener;
use machine::Instruction;
use stage::Stage;

// What a call leaves: the frozen allocations of both sides, and what happened.
#[derive(Drop)]
pub struct Called<A, B, C, D> {
    pub bench: Side<Frozen<A>, Frozen<B>>,
    pub core: Side<Frozen<C>, Frozen<D>>,
    pub answer: Result<Ran, CallFault>,
}

fn freeze<P: Stage, Q: Stage>(side: Side<Open<P>, Open<Q>>) -> Side<Frozen<P>, Frozen<Q>>
    ensures arguments_stay { state P.Stage result.arguments ≡ state P.Stage side.arguments }
    ensures results_stay { state Q.Stage result.results ≡ state Q.Stage side.results }
{
    Side {
        arguments: side.arguments.freeze(),
        results: side.results.freeze(),
    }
}

// Everything is taken one by one here and below, for the reason at `call`. Codes and runs what was placed; a refusal of
// placing ends the call.
fn run_placed<A: Stage, B: Stage, C: Stage, D: Stage>(
    placed: Result<(), PlacementFault>,
    bench: &Side<Frozen<A>, Frozen<B>>,
    core: &Side<Frozen<C>, Frozen<D>>,
    routine: Routine,
    caller: &mut [Instruction],
    callee: &mut [Instruction],
    registers: &mut [u32; 32],
    memory: &mut [u8],
    limit: usize,
) -> Result<Ran, CallFault>
    ensures refused_with_the_first_fault { fault_in result ≡ first_of (placing_fault placed)
        (coding_fault (standing_of A.Stage B.Stage C.Stage D.Stage bench.now core.now
        routine.entry.kept.bits routine.entry.body.now
        (world_of caller.old callee.old registers.old memory.old) limit)) }
    ensures pile_refusal_has_the_blamed_line { line_in result ≡ placing_line placed }
    ensures comes_out_by_the_rules { CameOut
        (standing_of A.Stage B.Stage C.Stage D.Stage bench.now core.now
        routine.entry.kept.bits routine.entry.body.now
        (world_of caller.old callee.old registers.old memory.old) limit)
        (world_of caller.new callee.new registers.new memory.new) result }
    ensures what_both_sides_hold_is_delivered { DeliversAsItStands
        (standing_of A.Stage B.Stage C.Stage D.Stage bench.now core.now
        routine.entry.kept.bits routine.entry.body.now
        (world_of caller.old callee.old registers.old memory.old) limit)
        (world_of caller.new callee.new registers.new memory.new) result }
{
    placed?;
    call_as_it_stands(
        bench,
        core,
        routine.kept,
        routine.body,
        caller,
        callee,
        registers,
        memory,
        limit,
    )
}

// Places the routine's types on both sides, freezes them, codes and runs.
fn place_and_run<A: Stage, B: Stage, C: Stage, D: Stage>(
    mut bench: Side<Open<A>, Open<B>>,
    mut core: Side<Open<C>, Open<D>>,
    routine: Routine,
    caller: &mut [Instruction],
    callee: &mut [Instruction],
    registers: &mut [u32; 32],
    memory: &mut [u8],
    limit: usize,
) -> Called<A, B, C, D>
    ensures sides_are_placed_by_the_rules { both_sides A.Stage B.Stage C.Stage D.Stage result.bench result.core ≡
        sides_of (placement (both_sides A.Stage B.Stage C.Stage D.Stage bench core)
        routine.entry.arguments.now routine.entry.results.now) }
    ensures refused_with_the_first_fault { fault_in result.answer ≡ first_of
        (placement (both_sides A.Stage B.Stage C.Stage D.Stage bench core)
        routine.entry.arguments.now routine.entry.results.now).core_results.fault
        (coding_fault
        (standing_of A.Stage B.Stage C.Stage D.Stage result.bench result.core
        routine.entry.kept.bits routine.entry.body.now
        (world_of caller.old callee.old registers.old memory.old) limit)) }
    ensures pile_refusal_has_the_blamed_line { line_in result.answer ≡
        placement_line (both_sides A.Stage B.Stage C.Stage D.Stage bench core)
        routine.entry.arguments.now routine.entry.results.now }
    ensures comes_out_by_the_rules { CameOut
        (standing_of A.Stage B.Stage C.Stage D.Stage result.bench result.core
        routine.entry.kept.bits routine.entry.body.now
        (world_of caller.old callee.old registers.old memory.old) limit)
        (world_of caller.new callee.new registers.new memory.new) result.answer }
    ensures what_both_sides_hold_is_delivered { DeliversAsItStands
        (standing_of A.Stage B.Stage C.Stage D.Stage result.bench result.core
        routine.entry.kept.bits routine.entry.body.now
        (world_of caller.old callee.old registers.old memory.old) limit)
        (world_of caller.new callee.new registers.new memory.new) result.answer }
{
    let placed = place_all(&mut bench, &mut core, routine);
    let bench = freeze(bench);
    let core = freeze(core);
    let answer = run_placed(
        placed, &bench, &core, routine, caller, callee, registers, memory, limit,
    );
    Called {
        bench,
        core,
        answer,
    }
}

// One call from bench to core: opens the piles, plays what came to each before and tells the listener each answer, and
// reopens; places the routine's types on both sides, freezes, and calls as it stands. The two lists, the registers and the
// memory are lent, each by itself: of a struct with such fields every clause would have to say too that each is still the
// one that was lent. Bench and core are two: a struct of both would only put their four piles one level deeper.
pub fn call<A: Stage, B: Stage, C: Stage, D: Stage, L: Listener>(
    bench: Side<UsedPile<A>, UsedPile<B>>,
    core: Side<UsedPile<C>, UsedPile<D>>,
    listener: &mut L,
    routine: Routine,
    caller: &mut [Instruction],
    callee: &mut [Instruction],
    registers: &mut [u32; 32],
    memory: &mut [u8],
    budget: usize,
) -> Called<A, B, C, D>
    ensures nothing_goes_astray { (heard : List Heard)
        × FoldsTo L.hears listener.old heard listener.new
        × NothingGoesAstray
        (setting_of_call A.Stage B.Stage C.Stage D.Stage bench.entry core.entry routine.entry
        (world_of caller.old callee.old registers.old memory.old) budget)
        (record {
          heard = heard;
          sides = both_sides A.Stage B.Stage C.Stage D.Stage result.bench result.core;
          world = world_of caller.new callee.new registers.new memory.new;
          answer = result.answer;
        }) }
{
    let bench = open_side(bench, listener);
    let core = open_side(core, listener);
    place_and_run(
        bench, core, routine, caller, callee, registers, memory, budget,
    )
}

// One call more over allocations that are frozen, and freezes them again: whatever came to them before, a reopening
// brings their first books back, so it promises as `call` does where nothing came before. What is lent is lent one by one
// as by `call`.
pub fn call_again<A: Stage, B: Stage, C: Stage, D: Stage>(
    bench: Side<Frozen<A>, Frozen<B>>,
    core: Side<Frozen<C>, Frozen<D>>,
    routine: Routine,
    caller: &mut [Instruction],
    callee: &mut [Instruction],
    registers: &mut [u32; 32],
    memory: &mut [u8],
    budget: usize,
) -> Called<A, B, C, D>
    ensures nothing_goes_astray { NothingGoesAstray
        (setting_of_call_again A.Stage B.Stage C.Stage D.Stage bench core routine.entry
        (world_of caller.old callee.old registers.old memory.old) budget)
        (unheard (both_sides A.Stage B.Stage C.Stage D.Stage result.bench result.core)
        (world_of caller.new callee.new registers.new memory.new) result.answer) }
    ensures what_it_leaves_and_answers_follows_from_what_it_starts_from { OneEndForEachSetting }
{
    let bench = reopen_side(bench);
    let core = reopen_side(core);
    place_and_run(
        bench, core, routine, caller, callee, registers, memory, budget,
    )
}
