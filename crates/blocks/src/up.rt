// The block, given from its lowest byte upward.
ghost use Rattle.std.specs.Prelude.{◌≡◌, ◌≤◌, IfOk};
ghost use Rattle.stage.specs.Books.{built_in};
ghost use Rattle.stage.specs.Clearing.{Begins};
ghost use Rattle.stage.specs.Faults.{fault_of};
ghost use Rattle.values.specs.Sizes.{OfBytes};
ghost use Rattle.blocks.specs.Grants.{GivesUpward};
ghost use Rattle.blocks.specs.Blocks.{up_book, up_profile, block_place, limit_fault};
ghost use Rattle.blocks.specs.BlocksLemmas.{up_lawful};

use place::pieces::{Piece, Place};
use place::registers::RegisterSet;
use stage::{ParameterFault, Refusal, Stage};
use values::requests::Request;
use values::sizes::Size;

#[derive(Drop)]
pub struct Up {
    // The largest alignment that it grants.
    limit: Size,
    used: u16,
    ghost within: { used ≤ 4096 },
}

impl Up {
    pub fn new(limit: u8) -> Result<Up, ParameterFault>
        ensures refused_unless_1_2_4_or_8 { fault_of result ≡ limit_fault limit }
        ensures means_up { IfOk result (λ s. OfBytes limit (λ size.
            Begins ⟦<Up as Stage>⟧ (up_profile size) s)) }
        ensures gives_upward { IfOk result (λ s. GivesUpward limit (⟦<Up as Stage>⟧.book s)) }
    {
        let limit = Size::try_from(limit)?;
        Ok(Up { limit, used: 0 })
    }
}

// The place of a width from an offset on.
fn block_place(offset: u16, width: Size) -> Place
    requires { offset ≤ 4096 }
    ensures eight_bytes_are_two_pieces { result ≡ block_place offset width }
{
    match width {
        Size::Eight => Place::Double(
            Piece::Block {
                offset,
                width: Size::Four,
            },
            Piece::Block {
                offset: offset + 4,
                width: Size::Four,
            },
        ),
        Size::One | Size::Two | Size::Four => Place::Single(Piece::Block { offset, width }),
    }
}

impl Stage for Up {
    ghost book = { λ s. up_book s.limit s.used };

    ghost blame = { λ _. built_in };

    ghost profile = { λ s. up_profile s.limit };

    ghost lawful = { λ s. up_lawful s.limit };

    fn place(&mut self, request: Request) -> Result<Place, Refusal> {
        let start = request.alignment.round_up(self.used);
        let end = start + u32::from(request.width.bytes());
        if request.alignment > self.limit || end > 4096 {
            return Err(Refusal { line: 0 });
        }
        self.used = end as u16;
        Ok(block_place(start as u16, request.width))
    }

    fn clear(&mut self) {
        self.used = 0;
    }

    fn registers(&self) -> RegisterSet {
        RegisterSet::EMPTY
    }

    fn block(&self) -> bool {
        true
    }

    fn sound(&self) -> bool {
        true
    }

    fn endless(&self, request: Request) -> bool {
        request.alignment <= self.limit
    }

    fn reach(&self) -> u16 {
        self.used
    }
}
