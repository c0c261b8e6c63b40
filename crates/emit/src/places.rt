// The code for places: filled from homes, copied to homes, stored to homes. What writes a record or two is always inlined,
// since a call for each place or piece costs as much as what it writes.
ghost use Rattle.std.specs.Prelude.{◌≡◌, ◌+◌, ◌*◌, ◌^◌, ◌<◌, ◌≤◌, ℕ, List, [], ◌∷◌, ◌++◌, map, length};
ghost use Rattle.machine.specs.declared.Instruction.{Instruction};
ghost use Rattle.place.specs.Holdings.{Holding};
ghost use Rattle.delivery.specs.Code.{settle, fill_place, copy_piece, copy_place, store_register, store_place, each_home};
ghost use Rattle.emit.specs.Emitting.{Appends};
ghost use Rattle.allocation.specs.States.{holding};

use crate::instructions::{SCRATCH, fill_high, fill_low, load, moved, store, through};
use crate::records::Records;
use allocation::held::Held;
use machine::{Instruction, Width};
use place::pieces::{Piece, Place};
use values::sizes::Size;

// What is done with a place and the home of its value.
pub(crate) trait HomeCode {
    // The code for a place whose home lies at an offset.
    ghost code: { Self → Holding → ℕ → List Instruction };

    // Here and below `near` says how far an offset lies: with a type for it each sum of two would have to make one.
    fn put(&self, records: &mut Records, held: Held, home: u32)
        requires room { records.old.len < 2 ^ 30 }
        requires near { home ≤ 100000 }
        ensures code_for_the_place { Appends (code self.now (holding held) home) records.old records.new }
        ensures few { records.new.len ≤ records.old.len + 4 };
}

// Places, filled from their homes.
pub(crate) struct Fill;

impl HomeCode for Fill {
    ghost code = { λ s. fill_place };

    #[inline(always)]
    fn put(&self, records: &mut Records, held: Held, home: u32) {
        let value = held.value;
        match held.place {
            Place::Single(low) => {
                put_filled(records, low, fill_low(value, through(low), home));
            }
            Place::Double(low, high) => {
                put_filled(records, low, fill_low(value, through(low), home));
                put_filled(
                    records,
                    high,
                    fill_high(value, through(high), through(low), home),
                );
            }
        }
    }
}

// The instruction that gives a piece its value, and a store where it lies in the block.
#[inline(always)]
fn put_filled(records: &mut Records, piece: Piece, x: Instruction)
    requires room { records.old.len < 2 ^ 31 }
    ensures then_settled { Appends (x ∷ settle piece) records.old records.new }
    ensures few { records.new.len ≤ records.old.len + 2 }
{
    records.put(x);
    if let Piece::Block { offset, width } = piece {
        records.put(store(SCRATCH, u32::from(offset), moved(width)));
    }
}

// Places, copied to their homes; the block lies at an offset.
#[derive(Drop)]
pub(crate) struct CopyFrom {
    pub(crate) block: u32,
    ghost near: { block ≤ 100000 },
}

impl HomeCode for CopyFrom {
    ghost code = { λ s. copy_place s.block };

    #[inline(always)]
    fn put(&self, records: &mut Records, held: Held, home: u32) {
        match held.place {
            Place::Single(low) => copy_piece(records, low, self.block, home),
            Place::Double(low, high) => {
                copy_piece(records, low, self.block, home);
                copy_piece(records, high, self.block, home + 4);
            }
        }
    }
}

#[inline(always)]
fn copy_piece(records: &mut Records, piece: Piece, block: u32, home: u32)
    requires room { records.old.len < 2 ^ 31 }
    requires near { block ≤ 100000 }
    ensures copies_the_piece { Appends (copy_piece block piece home) records.old records.new }
    ensures few { records.new.len ≤ records.old.len + 2 }
{
    match piece {
        Piece::Register(r) => records.put(store(r, home, Width::Four)),
        Piece::Block { offset, width } => {
            records.put(load(SCRATCH, block + u32::from(offset), moved(width)));
            records.put(store(SCRATCH, home, moved(width)));
        }
    }
}

// The low bytes of results that travel in registers, stored to their homes.
pub(crate) struct Store;

impl HomeCode for Store {
    ghost code = { λ s. store_place };

    #[inline(always)]
    fn put(&self, records: &mut Records, held: Held, home: u32) {
        let width = held.value.width;
        match (held.place, width) {
            (Place::Double(low, high), Size::Eight) => {
                store_piece(records, low, width, home);
                store_piece(records, high, width, home + 4);
            }
            (Place::Single(low) | Place::Double(low, _), _) => {
                store_piece(records, low, width, home);
            }
        }
    }
}

fn store_piece(records: &mut Records, piece: Piece, width: Size, home: u32)
    requires room { records.old.len < 2 ^ 31 }
    ensures stores_a_register { Appends (store_register width piece home) records.old records.new }
    ensures few { records.new.len ≤ records.old.len + 1 }
{
    if let Piece::Register(r) = piece {
        records.put(store(r, home, moved(width)));
    }
}

// Places whose homes lie one after the other, the first at `home`.
#[inline(always)]
pub(crate) fn put_each<H: HomeCode>(how: &H, records: &mut Records, held: &[Held], home: u32)
    requires room { records.old.len < 2 ^ 29 }
    requires few_places { length held.now ≤ 16 }
    requires near { home ≤ 90000 }
    ensures code_for_each_place { Appends (each_home (H.code how.now) (map holding held.now) home) records.old records.new }
    ensures few { records.new.len ≤ records.old.len + 64 }
{
    for (i, h) in held.iter().enumerate() {
        how.put(records, *h, home + 8 * i as u32);
    }
}
