// What open and frozen allocations share: a pile, and the places that it granted.
ghost use Rattle.std.specs.Prelude.{◌≡◌, ◌≤◌, [], map, filter, length};
ghost use Rattle.values.specs.Types.{all_types};

use crate::held::{Held, MOST};
use arrayvec::ArrayVec;
use stage::Stage;
use std::marker::PhantomData;
use values::value_type::ValueType;

// How many types there are.
const TYPES: usize = ValueType::ALL.len();

// A pile in use; S says whether it places or is frozen. Contracts see it by the definition `state` and not by a model,
// since a model's value has no room for a function, and a book is one.
#[derive(Drop)]
pub struct Allocation<P, S> {
    pub(crate) pile: P,
    pub(crate) held: ArrayVec<Held, MOST>,
    pub(crate) state: PhantomData<S>,
}

impl<P: Stage, S> Allocation<P, S> {
    ghost use Rattle.allocation.specs.States.{state, holding, opened, always_placed, EndlessForNothing};

    // With its pile cleared, and nothing held.
    pub(crate) fn cleared<T>(self) -> Allocation<P, T>
        ensures newly_opened { state P.Stage result ≡ opened (P.Stage.profile self.pile) }
    {
        let Allocation {
            pile,
            mut held,
            state: _,
        } = self;
        held.clear();
        Allocation {
            pile: pile.cleared(),
            held,
            state: PhantomData,
        }
    }

    // Whether this type, at its own alignment, is placed until the block is nearly full or sixteen are held.
    pub fn always_places(&self, value: ValueType) -> bool
        ensures endless_at_its_own_alignment_in_a_sound_pile { result ≡ always_placed (state P.Stage self.now).profile.questions value }
    {
        self.pile.sound() & self.pile.endless(value.request())
    }

    // Each type that is always placed, in the order of `ValueType::ALL`.
    pub fn report(&self) -> ArrayVec<ValueType, TYPES>
        ensures the_types_always_placed_in_their_order { result.items ≡ filter (always_placed (state P.Stage self.now).profile.questions) all_types }
        ensures empty_where_nothing_is_endless { EndlessForNothing (state P.Stage self.now).profile.questions → result.items ≡ [] }
    {
        let mut placed = ArrayVec::new();
        for value in ValueType::all() {
            if self.always_places(value) {
                placed.push(value);
            }
        }
        placed
    }

    // The places granted since it was opened or last reopened, in order.
    pub fn held(&self) -> &[Held]
        ensures granted_since_opened_in_order { map holding result.now ≡ (state P.Stage self.now).held }
        ensures at_most_sixteen { length result.now ≤ 16 }
    {
        self.held.as_slice()
    }
}
