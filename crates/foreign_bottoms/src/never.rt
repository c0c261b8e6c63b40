// A bottom that refuses every request.
ghost use Rattle.std.specs.Prelude.{◌≡◌, refl};
ghost use Rattle.stage.specs.Books.{built_in};
ghost use Rattle.foreign_bottoms.specs.Never.{never_book, never_profile};
ghost use Rattle.std.proofs.Common.{arith};
ghost use Rattle.place.proofs.Sets.{none_in_empty};
ghost use Rattle.foreign_bottoms.specs.NeverStageLemmas.{none_given};

use place::pieces::Place;
use place::registers::RegisterSet;
use stage::{Refusal, Stage};
use values::requests::Request;

#[derive(Drop)]
pub struct Never {}

impl Stage for Never {
    ghost book = { λ _. never_book };

    ghost blame = { λ _. built_in };

    ghost profile = { λ _. never_profile };

    ghost lawful = { λ s.
        record {
          registers_are_r0_to_r27 = λ x h. absurd (none_in_empty x h);
          reach_is_0_at_first = refl;
          after_every_list = λ rs. record {
            places_are_granted_lawfully = λ r p e. none_given _ p e;
            sound_places_share_no_byte = λ _ r p e. none_given _ p e;
            reach_never_falls = λ r. omega arith;
            reach_is_at_most_4096 = omega arith;
            reach_is_0_without_a_block = λ e. refl;
            endless_requests_are_granted_up_to_4088 = λ r e l. cc;
          };
        } };

    fn place(&mut self, _request: Request) -> Result<Place, Refusal> {
        Err(Refusal { line: 0 })
    }

    fn clear(&mut self) {}

    fn registers(&self) -> RegisterSet {
        RegisterSet::EMPTY
    }

    fn block(&self) -> bool {
        false
    }

    fn sound(&self) -> bool {
        true
    }

    fn endless(&self, _request: Request) -> bool {
        false
    }

    fn reach(&self) -> u16 {
        0
    }
}
