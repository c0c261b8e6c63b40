// The instructions that a call's code is made of.
ghost use Rattle.std.specs.Prelude.{◌≡◌, ◌≤◌, false, neg_ℤ};
ghost use Rattle.delivery.specs.Code.{offset, moved, through, by_sign, fill_further, down, up};
ghost use Rattle.machine.specs.declared.Instruction.TheVariants.{Addi, Load, Store};

use machine::{Instruction, Width};
use place::pieces::Piece;
use values::kinds::Kind;
use values::sizes::Size;
use values::value_type::ValueType;

pub(crate) const STACK_POINTER: u8 = 31;

// Block pieces go through it.
pub(crate) const SCRATCH: u8 = 28;

// An offset from the stack pointer in 15 bits.
pub(crate) fn offset(n: u32) -> i16
    ensures the_low_15_bits { result ≡ offset n }
{
    (n % 0x8000) as i16
}

// A function and no conversion, since it is not exact: 8 bytes are moved by 4.
pub(crate) fn moved(size: Size) -> Width
    ensures at_most_4_bytes { result ≡ moved size }
{
    match size {
        Size::One => Width::One,
        Size::Two => Width::Two,
        Size::Four | Size::Eight => Width::Four,
    }
}

// The register that a piece is filled through.
pub(crate) fn through(piece: Piece) -> u8
    ensures itself_or_the_scratch_register { result ≡ through piece }
{
    match piece {
        Piece::Register(r) => r,
        Piece::Block { .. } => SCRATCH,
    }
}

// Whether a load of this kind extends by sign.
fn by_sign(kind: Kind) -> bool
    ensures signed_kinds_alone { result ≡ by_sign kind }
{
    kind == Kind::Signed
}

// The low piece of a value, from its home into register d.
pub(crate) fn fill_low(value: ValueType, d: u8, home: u32) -> Instruction
    ensures loads_at_most_4_bytes_by_the_kind { result ≡ Load d 31 (offset home) (moved value.width) (by_sign value.kind) }
{
    Instruction::Load {
        d,
        b: STACK_POINTER,
        i: offset(home),
        width: moved(value.width),
        signed: by_sign(value.kind),
    }
}

// The high piece of a value, from its home into register d; register s has its low piece.
pub(crate) fn fill_high(value: ValueType, d: u8, s: u8, home: u32) -> Instruction
    requires near { home ≤ 100000 }
    ensures loads_or_extends { result ≡ fill_further value.kind value.width 1 d s home }
{
    match (value.width, value.kind) {
        (Size::Eight, kind) => Instruction::Load {
            d,
            b: STACK_POINTER,
            i: offset(home + 4),
            width: Width::Four,
            signed: by_sign(kind),
        },
        (_, Kind::Signed) => Instruction::Sign { d, s },
        _ => Instruction::Set { d, n: 0 },
    }
}

fn move_stack(i: i16) -> Instruction
    ensures adds_to_the_stack_pointer { result ≡ Addi 31 31 i }
{
    Instruction::Addi {
        d: STACK_POINTER,
        s: STACK_POINTER,
        i,
    }
}

pub(crate) fn stack_down(bytes: u32) -> Instruction
    ensures takes_the_bytes { result ≡ down bytes }
{
    move_stack(-offset(bytes))
}

pub(crate) fn stack_up(bytes: u32) -> Instruction
    ensures gives_the_bytes_back { result ≡ up bytes }
{
    move_stack(offset(bytes))
}

pub(crate) fn load(d: u8, at: u32, width: Width) -> Instruction
    ensures from_the_stack_with_zeros { result ≡ Load d 31 (offset at) width false }
{
    Instruction::Load {
        d,
        b: STACK_POINTER,
        i: offset(at),
        width,
        signed: false,
    }
}

pub(crate) fn store(s: u8, at: u32, width: Width) -> Instruction
    ensures to_the_stack { result ≡ Store s 31 (offset at) width }
{
    Instruction::Store {
        s,
        b: STACK_POINTER,
        i: offset(at),
        width,
    }
}
