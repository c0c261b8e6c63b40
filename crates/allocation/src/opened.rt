// Allocations that place.
ghost use Rattle.std.specs.Prelude.{◌≡◌, ◌<◌, length, IfErr, None, OnOk};

use crate::asked::Asked;
use crate::faults::{Cause, PlacementFault};
use crate::frozen::Frozen;
use crate::held::Held;
use crate::shared::Allocation;
use crate::wanted::Wanted;
use arrayvec::ArrayVec;
use place::pieces::Place;
use stage::Stage;
use std::marker::PhantomData;
use values::requests::Request;

// The state of an allocation that can place more.
#[derive(Clone, Copy, Debug)]
pub struct Placing;

pub type Open<P> = Allocation<P, Placing>;

impl<P: Stage> Allocation<P, Placing> {
    ghost use Rattle.allocation.specs.Faults.{answer_of, line_of, cause_line, positioned};
    ghost use Rattle.allocation.specs.States.{state, opened};
    ghost use Rattle.allocation.specs.Rules.{admitted, reaching, placed, place_answer, blamed_line};

    pub fn new(pile: P) -> Open<P>
        ensures newly_opened { state P.Stage result ≡ opened (P.Stage.profile pile) }
    {
        let table: Open<P> = Allocation {
            pile,
            held: ArrayVec::new(),
            state: PhantomData,
        };
        table.cleared()
    }

    // What the pile is asked, or the refusal before that: the type is tested, then the room, then the pile.
    fn admit(&self, asked: Asked) -> Result<Wanted, Cause>
        ensures reaches_the_pile_or_is_refused_by_the_first_test_that_fails { admitted result ≡ reaching (state P.Stage self.now) asked }
        ensures admits_below_sixteen { OnOk result (length self.now.held.items < 16) }
        ensures refusals_have_no_line { IfErr result (λ c. cause_line c ≡ None) }
    {
        let wanted = Wanted::try_from(asked)?;
        if self.held.is_full() {
            return Err(Cause::Full);
        }
        if !self.pile.sound() {
            return Err(Cause::Unsound);
        }
        Ok(wanted)
    }

    // A place, which is held from then on.
    fn grant(&mut self, asked: Asked) -> Result<Place, Cause>
        ensures answers_by_the_rules { answer_of (positioned (length self.old.held.items) result) ≡ place_answer (state P.Stage self.old) asked }
        ensures pile_refusal_has_the_blamed_line { line_of (positioned (length self.old.held.items) result) ≡ blamed_line (state P.Stage self.old) asked }
        ensures moves_by_the_rules { state P.Stage self.new ≡ placed (state P.Stage self.old) asked }
    {
        let wanted = self.admit(asked)?;
        let place = self.pile.place(Request::from(wanted))?;
        self.held.push(Held {
            value: wanted.value,
            place,
        });
        Ok(place)
    }

    // A place for a value that is given by numbers; it is held from then on.
    pub fn place(&mut self, asked: Asked) -> Result<Place, PlacementFault>
        ensures answers_by_the_rules { answer_of result ≡ place_answer (state P.Stage self.old) asked }
        ensures pile_refusal_has_the_blamed_line { line_of result ≡ blamed_line (state P.Stage self.old) asked }
        ensures moves_by_the_rules { state P.Stage self.new ≡ placed (state P.Stage self.old) asked }
    {
        let position = self.held.len();
        match self.grant(asked) {
            Ok(place) => Ok(place),
            Err(cause) => Err((cause, position))?,
        }
    }

    pub fn freeze(self) -> Frozen<P>
        ensures pile_and_held_places_stay { state P.Stage result ≡ state P.Stage self }
    {
        let Allocation {
            pile,
            held,
            state: _,
        } = self;
        Allocation {
            pile,
            held,
            state: PhantomData,
        }
    }
}
