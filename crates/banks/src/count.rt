// A bank that gives one register after the other.
ghost use Rattle.std.specs.Prelude.{◌≡◌, ◌↔◌, length, IfOk, IsOk};
ghost use Rattle.stage.specs.Clearing.{Begins};
ghost use Rattle.stage.specs.Faults.{fault_of};
ghost use Rattle.banks.specs.Banks.{count_does, count_profile};
ghost use Rattle.banks.specs.BanksLemmas.{count_lawful};
ghost use Rattle.banks.specs.Grants.{GivesOneByOne};
ghost use Rattle.banks.specs.Lists.{list_fault, IsRegisterList, IsRefusedWith, HasWrongCount, HasWrongRegister};

use crate::bank::{Bank, Order};
use crate::register_list::RegisterList;
use place::pieces::{Piece, Place};
use stage::{ParameterFault, Stage};
use values::requests::Request;
use values::sizes::Size;

// The next register for a width of 4; the cursor counts registers.
#[derive(Drop)]
pub struct OneByOne;

pub type Count = Bank<OneByOne>;

impl Bank<OneByOne> {
    pub fn new(registers: &[u8]) -> Result<Count, ParameterFault>
        ensures refused_by_count_then_by_register { fault_of result ≡ list_fault registers.now }
        ensures accepts_exactly_the_register_lists { IsOk result ↔ IsRegisterList registers.now }
        ensures wrong_count_is_a_wrong_form { IsRefusedWith 2 result ↔ HasWrongCount registers.now }
        ensures wrong_register_is_out_of_range { IsRefusedWith 3 result ↔ HasWrongRegister registers.now }
        ensures means_count { IfOk result (Begins ⟦<Count as Stage>⟧ (count_profile registers.now)) }
        ensures gives_one_by_one { IfOk result (λ s.
            GivesOneByOne registers.now (⟦<Count as Stage>⟧.book s)) }
    {
        Bank::of_list(registers)
    }
}

impl Order for OneByOne {
    ghost does = { count_does };

    ghost end = { length };

    ghost lawful = { count_lawful };

    fn find(list: &RegisterList, cursor: u16, request: Request) -> Option<(Place, u16)> {
        if request.width != Size::Four {
            return None;
        }
        let register = list.registers.get(cursor as usize)?;
        Some((Place::Single(Piece::Register(*register)), cursor + 1))
    }
}
