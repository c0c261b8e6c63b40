// Placing a signature on both sides.
ghost use Rattle.std.specs.Prelude.{◌≡◌, ◌++◌};
ghost use Rattle.std.specs.List.{FoldsTo};
ghost use Rattle.allocation.specs.States.{state, opened};
ghost use Rattle.histories.specs.Events.{used_of, answers_of_past};
ghost use Rattle.call.specs.Placing.{placed_until, first_refused, first_blamed, placing_fault, placing_line, placement, placement_line, both_sides, ComesOf};

use crate::sides::{Routine, Side};
use allocation::asked::Asked;
use allocation::faults::PlacementFault;
use allocation::frozen::Frozen;
use allocation::opened::Open;
use histories::events::UsedPile;
use histories::listeners::Listener;
use histories::plays::play;
use stage::Stage;

// Plays what came to a pile before, tells each answer, and reopens.
fn reopened<P: Stage, L: Listener>(used: UsedPile<P>, listener: &mut L) -> Open<P>
    ensures every_answer_is_heard { FoldsTo L.hears listener.old
        (answers_of_past (used_of P.Stage used.entry)) listener.new }
    ensures newly_opened { state P.Stage result ≡ opened (P.Stage.profile used.entry.pile) }
{
    play(used, listener).freeze().reopen()
}

// A side's piles, each opened, used as it was before, and reopened.
pub(crate) fn open_side<P: Stage, Q: Stage, L: Listener>(
    side: Side<UsedPile<P>, UsedPile<Q>>,
    listener: &mut L,
) -> Side<Open<P>, Open<Q>>
    ensures every_answer_is_heard { FoldsTo L.hears listener.old
        (answers_of_past (used_of P.Stage side.entry.arguments)
        ++ answers_of_past (used_of Q.Stage side.entry.results)) listener.new }
    ensures arguments_newly_opened { state P.Stage result.arguments ≡ opened
        (P.Stage.profile side.entry.arguments.pile) }
    ensures results_newly_opened { state Q.Stage result.results ≡ opened
        (Q.Stage.profile side.entry.results.pile) }
{
    Side {
        arguments: reopened(side.arguments, listener),
        results: reopened(side.results, listener),
    }
}

// A side's allocations, reopened.
pub(crate) fn reopen_side<P: Stage, Q: Stage>(
    side: Side<Frozen<P>, Frozen<Q>>,
) -> Side<Open<P>, Open<Q>>
    ensures arguments_newly_opened { state P.Stage result.arguments ≡ opened
        (state P.Stage side.arguments).profile }
    ensures results_newly_opened { state Q.Stage result.results ≡ opened
        (state Q.Stage side.results).profile }
{
    Side {
        arguments: side.arguments.reopen(),
        results: side.results.reopen(),
    }
}

// Places each in turn, up to the first that is refused.
fn place_list<P: Stage>(allocation: &mut Open<P>, list: &[Asked]) -> Result<(), PlacementFault>
    ensures asked_up_to_the_first_refused { state P.Stage allocation.new ≡ placed_until
        (state P.Stage allocation.old) list.now }
    ensures fault_of_the_first_refused { placing_fault result ≡ first_refused
        (state P.Stage allocation.old) list.now }
    ensures pile_refusal_has_the_blamed_line { placing_line result ≡ first_blamed
        (state P.Stage allocation.old) list.now }
{
    for asked in list {
        allocation.place(*asked)?;
    }
    Ok(())
}

// Bench, then core: arguments, then results, up to the first that is refused.
pub(crate) fn place_all<A: Stage, B: Stage, C: Stage, D: Stage>(
    bench: &mut Side<Open<A>, Open<B>>,
    core: &mut Side<Open<C>, Open<D>>,
    routine: Routine,
) -> Result<(), PlacementFault>
    ensures bench_then_core_up_to_the_first_refused { ComesOf
        (placement (both_sides A.Stage B.Stage C.Stage D.Stage bench.old core.old)
        routine.entry.arguments.now routine.entry.results.now)
        (both_sides A.Stage B.Stage C.Stage D.Stage bench.new core.new)
        (placing_fault result) }
    ensures pile_refusal_has_the_blamed_line { placing_line result ≡
        placement_line (both_sides A.Stage B.Stage C.Stage D.Stage bench.old core.old)
        routine.entry.arguments.now routine.entry.results.now }
{
    place_list(&mut bench.arguments, routine.arguments)?;
    place_list(&mut bench.results, routine.results)?;
    place_list(&mut core.arguments, routine.arguments)?;
    place_list(&mut core.results, routine.results)
}
