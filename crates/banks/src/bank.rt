// A bank of registers, which it gives in an order of its own.
ghost use Rattle.std.specs.Prelude.{◌≡◌, ◌≤◌, IfOk, MatchOption};
ghost use Rattle.stage.specs.Books.{built_in};
ghost use Rattle.stage.specs.Faults.{fault_of};
ghost use Rattle.banks.specs.Lists.{list_fault};
ghost use Rattle.banks.specs.Banks.{bank_book, bank_profile};

use crate::register_list::RegisterList;
use place::pieces::Place;
use place::registers::RegisterSet;
use stage::{ParameterFault, Refusal, Stage};
use std::marker::PhantomData;
use values::requests::Request;

// What a bank does with a request, by its registers and a cursor that stands within them.
pub trait Order {
    ghost use Rattle.std.specs.Prelude.{ℕ, List, true};
    ghost use Rattle.stage.specs.Lawful.{Lawful};
    ghost use Rattle.stage.specs.Cursors.{Move, grant, refuse};
    ghost use Rattle.values.specs.declared.requests.Request.{Request};
    ghost use Rattle.banks.specs.Lists.{distinct};
    ghost use Rattle.banks.specs.Banks.{bank_questions};

    // Its move at a cursor.
    ghost does: { List ℕ → ℕ → Request → Move };

    // Where its cursor ends.
    ghost end: { List ℕ → ℕ };

    // The place for a request, and where the cursor stands behind it.
    fn find(list: &RegisterList, cursor: u16, request: Request) -> Option<(Place, u16)>
        ensures the_move_at_the_cursor { MatchOption result (does list.now.registers.items cursor request ≡ refuse cursor) (λ a. (does list.now.registers.items cursor request ≡ grant a.0 a.1) × (a.1 ≤ end list.now.registers.items)) };

    ghost lawful: { (xs : List ℕ) → distinct xs ≡ true → Lawful (bank_questions xs) (bank_book does xs 0) };
}

#[derive(Drop)]
pub struct Bank<O: Order> {
    list: RegisterList,
    cursor: u16,
    order: PhantomData<O>,
    ghost within: { cursor ≤ O.end list.registers.items },
}

impl<O: Order> Bank<O> {
    // A bank of any order: what it gives is promised by the maker of each order, which stands beside the order.
    pub(crate) fn of_list(registers: &[u8]) -> Result<Bank<O>, ParameterFault>
        ensures refused_by_count_then_by_register { fault_of result ≡ list_fault registers.now }
        ensures starts_with_the_list { IfOk result (λ s. (s.list.registers.items ≡ registers.now) × (s.cursor ≡ 0)) }
    {
        let list = RegisterList::new(registers)?;
        Ok(Bank {
            list,
            cursor: 0,
            order: PhantomData,
        })
    }
}

impl<O: Order> Stage for Bank<O> {
    ghost book = { λ s. bank_book O.does s.list.registers.items s.cursor };

    ghost blame = { λ _. built_in };

    ghost profile = { λ s. bank_profile (bank_book O.does s.list.registers.items 0) s.list.registers.items };

    ghost lawful = { λ s. O.lawful _ s.list.distinct };

    fn place(&mut self, request: Request) -> Result<Place, Refusal> {
        let (place, end) = O::find(&self.list, self.cursor, request).ok_or(Refusal { line: 0 })?;
        self.cursor = end;
        Ok(place)
    }

    fn clear(&mut self) {
        self.cursor = 0;
    }

    fn registers(&self) -> RegisterSet {
        self.list.set
    }

    fn block(&self) -> bool {
        false
    }

    fn sound(&self) -> bool {
        true
    }

    fn endless(&self, _request: Request) -> bool {
        false
    }

    fn reach(&self) -> u16 {
        0
    }
}
