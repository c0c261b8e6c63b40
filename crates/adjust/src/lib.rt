// A layer that asks the stage below for at least a certain width, or a certain alignment.
#![tactic(auto)]

ghost use Rattle.std.specs.Prelude.{◌≡◌, IfOk};
ghost use Rattle.stage.specs.Clearing.{Begins};
ghost use Rattle.stage.specs.Faults.{fault_of, width_fault};
ghost use Rattle.values.specs.Requests.{widened, raised};
ghost use Rattle.values.specs.Sizes.{OfBytes};
ghost use Rattle.adjust.specs.Adjusting.{changed, map_book, map_blame, map_profile};
ghost use Rattle.adjust.specs.AdjustingLemmas.{adjust_lawful};

use place::pieces::Place;
use place::registers::RegisterSet;
use stage::{ParameterFault, Refusal, Stage, raised_size};
use values::requests::Request;
use values::sizes::Size;

// A change of requests on their way down: the width or the alignment is raised to 2, 4 or 8 bytes, where it is smaller. Its
// makers refuse every other number, so none is made that raises to 1.
#[derive(Clone, Copy, PartialEq, Eq, Debug)]
pub struct Change {
    least: Least,
}

// What the change leaves at the least. Two cases, since a trait with an instance for each would be longer than the match.
#[derive(Clone, Copy, PartialEq, Eq, Debug)]
enum Least {
    Width(Size),
    Alignment(Size),
}

#[derive(Drop)]
pub struct Adjust<S> {
    change: Change,
    below: S,
}

impl Change {
    // Raises a smaller width to m bytes.
    pub fn widen(m: u8) -> Result<Change, ParameterFault>
        ensures refused_unless_2_4_or_8 { fault_of result ≡ width_fault m }
        ensures raises_the_width_to_m { IfOk result (λ c. OfBytes m (λ size. changed c ≡ widened size)) }
    {
        let least = Least::Width(raised_size(m)?);
        Ok(Change { least })
    }

    // Raises a smaller alignment to m bytes.
    pub fn raise(m: u8) -> Result<Change, ParameterFault>
        ensures refused_unless_2_4_or_8 { fault_of result ≡ width_fault m }
        ensures raises_the_alignment_to_m { IfOk result (λ c. OfBytes m (λ size. changed c ≡ raised size)) }
    {
        let least = Least::Alignment(raised_size(m)?);
        Ok(Change { least })
    }

    pub fn apply(self, request: Request) -> Request
        ensures the_changed_request { result ≡ changed self request }
    {
        match self.least {
            Least::Width(m) => request.widened(m),
            Least::Alignment(m) => request.raised(m),
        }
    }
}

impl<S: Stage> Adjust<S> {
    // The stage below, cleared, behind a change.
    pub fn new(change: Change, below: S) -> Adjust<S>
        ensures means_the_change_in_front { Begins ⟦<Adjust<S> as Stage>⟧
            (map_profile (changed change) (S.Stage.profile below)) result }
    {
        Adjust {
            change,
            below: below.cleared(),
        }
    }
}

impl<S: Stage + Drop> Adjust<S> {
    // Raises a smaller width to m.
    pub fn widen(m: u8, below: S) -> Result<Adjust<S>, ParameterFault>
        ensures refused_unless_2_4_or_8 { fault_of result ≡ width_fault m }
        ensures means_widen { IfOk result (λ s. OfBytes m (λ size.
            Begins ⟦<Adjust<S> as Stage>⟧ (map_profile (widened size) (S.Stage.profile below)) s)) }
    {
        let change = Change::widen(m)?;
        Ok(Adjust::new(change, below))
    }

    // Raises a smaller alignment to m.
    pub fn raise(m: u8, below: S) -> Result<Adjust<S>, ParameterFault>
        ensures refused_unless_2_4_or_8 { fault_of result ≡ width_fault m }
        ensures means_raise { IfOk result (λ s. OfBytes m (λ size.
            Begins ⟦<Adjust<S> as Stage>⟧ (map_profile (raised size) (S.Stage.profile below)) s)) }
    {
        let change = Change::raise(m)?;
        Ok(Adjust::new(change, below))
    }
}

impl<S: Stage> Stage for Adjust<S> {
    ghost book = { λ s. map_book (changed s.change) (S.Stage.book s.below) };

    ghost blame = { λ s. map_blame (changed s.change) (S.Stage.blame s.below) };

    ghost profile = { λ s. map_profile (changed s.change) (S.Stage.profile s.below) };

    ghost lawful = { λ s. adjust_lawful s.change _ _ (S.Stage.lawful s.below) };

    fn place(&mut self, request: Request) -> Result<Place, Refusal> {
        self.below.place(self.change.apply(request))
    }

    fn clear(&mut self) {
        self.below.clear();
    }

    fn registers(&self) -> RegisterSet {
        self.below.registers()
    }

    fn block(&self) -> bool {
        self.below.block()
    }

    fn sound(&self) -> bool {
        self.below.sound()
    }

    fn endless(&self, request: Request) -> bool {
        self.below.endless(self.change.apply(request))
    }

    fn reach(&self) -> u16 {
        self.below.reach()
    }
}
