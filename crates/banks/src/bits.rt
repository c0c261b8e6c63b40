// A bank that gives registers and aligned pairs of them by a byte cursor.
ghost use Rattle.std.specs.Prelude.{◌≡◌, ◌*◌, ◌↔◌, length, IfOk, IsOk};
ghost use Rattle.stage.specs.Clearing.{Begins};
ghost use Rattle.stage.specs.Faults.{fault_of};
ghost use Rattle.banks.specs.Banks.{bits_does, bits_profile};
ghost use Rattle.banks.specs.BanksLemmas.{bits_lawful};
ghost use Rattle.banks.specs.Grants.{GivesByBytes};
ghost use Rattle.banks.specs.Lists.{list_fault, IsRegisterList, IsRefusedWith, HasWrongCount, HasWrongRegister};

use crate::bank::{Bank, Order};
use crate::register_list::RegisterList;
use place::pieces::{Piece, Place};
use stage::{ParameterFault, Stage};
use values::requests::Request;
use values::sizes::Size;

// Registers and pairs for widths of 4 and 8; the cursor counts bytes, 4 to a register.
#[derive(Drop)]
pub struct ByBytes;

pub type Bits = Bank<ByBytes>;

impl Bank<ByBytes> {
    pub fn new(registers: &[u8]) -> Result<Bits, ParameterFault>
        ensures refused_by_count_then_by_register { fault_of result ≡ list_fault registers.now }
        ensures accepts_exactly_the_register_lists { IsOk result ↔ IsRegisterList registers.now }
        ensures wrong_count_is_a_wrong_form { IsRefusedWith 2 result ↔ HasWrongCount registers.now }
        ensures wrong_register_is_out_of_range { IsRefusedWith 3 result ↔ HasWrongRegister registers.now }
        ensures means_bits { IfOk result (Begins ⟦<Bits as Stage>⟧ (bits_profile registers.now)) }
        ensures gives_by_bytes { IfOk result (λ s.
            GivesByBytes registers.now (⟦<Bits as Stage>⟧.book s)) }
    {
        Bank::of_list(registers)
    }
}

impl Order for ByBytes {
    ghost does = { bits_does };

    ghost end = { λ xs. 4 * length xs };

    ghost lawful = { bits_lawful };

    fn find(list: &RegisterList, cursor: u16, request: Request) -> Option<(Place, u16)> {
        let start = request.raised(Size::Four).alignment.round_up(cursor);
        let low = list.registers.get(start as usize / 4)?;
        match request.width {
            Size::Four => Some((Place::Single(Piece::Register(*low)), (start + 4) as u16)),
            Size::Eight => {
                let high = list.registers.get(start as usize / 4 + 1)?;
                let place = Place::Double(Piece::Register(*low), Piece::Register(*high));
                Some((place, (start + 8) as u16))
            }
            Size::One | Size::Two => None,
        }
    }
}
