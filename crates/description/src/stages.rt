// The piles of the stages that were built, until one above is built of them.
ghost use Rattle.std.specs.Prelude.{◌≡◌, ◌<◌, ◌≤◌, [], ◌∷◌, ◌++◌, ℕ, List, true, false, length, MatchOption};
ghost use Rattle.stage.specs.Books.{Profile};
ghost use Rattle.described.specs.Piles.{AtStart};
ghost use Rattle.pages.specs.Rules.{is_free, are_free};
ghost use Rattle.description.specs.Profiles.{stage_at};
ghost use Rattle.description.specs.Stages.{HasStages, AreTaken};

use arrayvec::ArrayVec;
use described::pile::Pile;

// By their lines, in order; none where a stage above, or the description, has taken the pile.
#[derive(Drop)]
pub(crate) struct Stages {
    free: ArrayVec<Option<Pile>, 24>,
}

impl Stages {
    // The pile of a stage, if it is there.
    pub(crate) fn take(&mut self, number: u8) -> Option<Pile>
        ensures a_free_stage_or_none { (stages : List Profile) (named : List ℕ) → HasStages stages named self.old → MatchOption result (is_free (length stages) named number ≡ false) (λ pile. (is_free (length stages) named number ≡ true) × AtStart (stage_at stages number) pile × HasStages stages (named ++ number ∷ []) self.new) }
    {
        let index = usize::from(number).checked_sub(1)?;
        self.free.get_mut(index)?.take()
    }

    // Those that a line names, two at most, one after the other.
    pub(crate) fn take_all(&mut self, below: &[u8]) -> Option<(Option<Pile>, Option<Pile>)>
        requires two_at_most { length below.now ≤ 2 }
        ensures free_stages_or_none { (stages : List Profile) (named : List ℕ) → HasStages stages named self.old → MatchOption result (are_free (length stages) named below.now ≡ false) (λ p. (are_free (length stages) named below.now ≡ true) × AreTaken stages below.now p.0 p.1 × HasStages stages (named ++ below.now) self.new) }
    {
        match below {
            [] => Some((None, None)),
            [first] => Some((Some(self.take(*first)?), None)),
            [first, second] => {
                let first = self.take(*first)?;
                let second = self.take(*second)?;
                Some((Some(first), Some(second)))
            }
            _ => None,
        }
    }

    pub(crate) fn new() -> Stages
        ensures no_stage_yet { HasStages [] [] result }
    {
        Stages {
            free: ArrayVec::new(),
        }
    }

    pub(crate) fn count(&self) -> usize
        ensures as_many_as_stages { (stages : List Profile) (named : List ℕ) → HasStages stages named self.now → result ≡ length stages }
        ensures at_most_24 { result ≤ 24 }
    {
        self.free.len()
    }

    pub(crate) fn push(&mut self, pile: Pile)
        requires room_for_one_more { length self.now.free.items < 24 }
        ensures one_stage_more { (stages : List Profile) (named : List ℕ) (p : Profile) → HasStages stages named self.old → AtStart p pile → HasStages (stages ++ p ∷ []) named self.new }
    {
        self.free.push(Some(pile));
    }
}
