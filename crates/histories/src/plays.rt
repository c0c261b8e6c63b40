// Pasts of allocations, played.
ghost use Rattle.std.specs.Prelude.{◌≡◌, ◌≤◌, ◌↔◌, IsTrue, map, length, Some};
ghost use Rattle.std.specs.Option.{option_map};
ghost use Rattle.std.specs.List.{FoldsTo};
ghost use Rattle.allocation.specs.States.{state, opened};
ghost use Rattle.stage.specs.Books.{Alike};
ghost use Rattle.histories.specs.Heard.{heard_of};
ghost use Rattle.histories.specs.Events.{told, places, used_of, after_past, answers_of_past, reopened_for};
ghost use Rattle.histories.specs.Histories.{answers};
ghost use Rattle.histories.specs.Laws.{LawfulAtEveryMoment, LawfulAfterEveryPast, EqualRequestsGetEqualAnswers};

use crate::events::{Event, UsedPile};
use crate::listeners::{Listener, Record};
use allocation::answers::{Answer, same_answer};
use allocation::asked::Asked;
use allocation::opened::Open;
use arrayvec::ArrayVec;
use stage::Stage;

// Opens the pile, and lets what came to it come in turn; the listener is told each answer.
pub fn play<P: Stage, L: Listener>(used: UsedPile<P>, listener: &mut L) -> Open<P>
    ensures becomes_by_the_rules { state P.Stage result ≡ after_past (used_of P.Stage used.entry) }
    ensures every_answer_is_heard { FoldsTo L.hears listener.old
        (answers_of_past (used_of P.Stage used.entry)) listener.new }
    ensures profile_stays { (state P.Stage result).profile ≡ P.Stage.profile used.entry.pile }
    ensures lawful_at_every_moment { LawfulAtEveryMoment (used_of P.Stage used.entry) }
    ensures lawful_after_every_past { LawfulAfterEveryPast (P.Stage.profile used.entry.pile) }
{
    let UsedPile { pile, past } = used;
    let mut allocation = Open::new(pile);
    for event in past {
        match *event {
            Event::Place(asked) => {
                listener.hear(allocation.place(asked));
            }
            Event::Reopen => allocation = allocation.freeze().reopen(),
        }
    }
    allocation
}

// The answers of a past, as far as there is room.
pub fn answers_to<P: Stage + Drop, const N: usize>(used: UsedPile<P>) -> ArrayVec<Option<Answer>, N>
    ensures each_answer_where_there_is_room { length (answers_of_past (used_of P.Stage used.entry)) ≤ N →
        map (option_map heard_of) result.items ≡
        map Some (answers_of_past (used_of P.Stage used.entry)) }
{
    let mut record: Record<N> = Record {
        answers: ArrayVec::new(),
    };
    let _ = play(used, &mut record);
    record.answers
}

// Places each in turn on both, and tells each side's listener; whether every answer was the same on both.
fn place_each<P: Stage, Q: Stage, L: Listener, M: Listener>(
    one: &mut Open<P>,
    other: &mut Open<Q>,
    since: &[Asked],
    listener: &mut L,
    counterpart: &mut M,
) -> bool
    ensures answers_of_one_are_heard { FoldsTo L.hears listener.old
        (told (state P.Stage one.old) (places since.now)) listener.new }
    ensures answers_of_the_other_are_heard { FoldsTo M.hears counterpart.old
        (told (state Q.Stage other.old) (places since.now)) counterpart.new }
    ensures whether_the_answers_are_equal { IsTrue result ↔
        (answers (state P.Stage one.old) since.now ≡ answers (state Q.Stage other.old) since.now) }
{
    let mut alike = true;
    for asked in since {
        let answer = one.place(*asked);
        let opposite = other.place(*asked);
        listener.hear(answer);
        counterpart.hear(opposite);
        let same = same_answer(answer, opposite);
        alike = alike & same;
    }
    alike
}

// Plays both pasts, reopens, and asks both for the same; whether every answer since was the same on both. Each side's
// listener is told every answer of its past and since.
pub fn place_alike<P: Stage + Drop, Q: Stage + Drop, L: Listener, M: Listener>(
    first: UsedPile<P>,
    second: UsedPile<Q>,
    since: &[Asked],
    listener: &mut L,
    counterpart: &mut M,
) -> bool
    ensures every_answer_of_the_first_is_heard { FoldsTo L.hears listener.old
        (answers_of_past (reopened_for since.now (used_of P.Stage first.entry))) listener.new }
    ensures every_answer_of_the_second_is_heard { FoldsTo M.hears counterpart.old
        (answers_of_past (reopened_for since.now (used_of Q.Stage second.entry))) counterpart.new }
    ensures whether_the_answers_since_are_equal { IsTrue result ↔
        (answers (opened (P.Stage.profile first.entry.pile)) since.now
        ≡ answers (opened (Q.Stage.profile second.entry.pile)) since.now) }
    ensures equal_requests_get_equal_answers { EqualRequestsGetEqualAnswers
        (P.Stage.profile first.entry.pile) (Q.Stage.profile second.entry.pile) }
    ensures true_where_the_piles_agree { Alike (P.Stage.profile first.entry.pile)
        (Q.Stage.profile second.entry.pile) → IsTrue result }
{
    let mut one = play(first, listener).freeze().reopen();
    let mut other = play(second, counterpart).freeze().reopen();
    place_each(&mut one, &mut other, since, listener, counterpart)
}
