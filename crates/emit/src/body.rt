// What a callee's body may have.
ghost use Rattle.std.specs.Prelude.{◌≡◌};
ghost use Rattle.delivery.specs.Bodies.{within_homes, accepts, body_fault};

use machine::{Instruction, Width};

fn within_homes(i: i16, width: Width, homes: u16) -> bool
    ensures whether_all_its_bytes_are_homes { result ≡ within_homes homes i width }
{
    i >= 0 && i as usize + width.bytes() <= usize::from(homes)
}

// Whether a body may have this instruction.
fn accepts(x: Instruction, homes: u16) -> bool
    ensures whether_a_body_may_have_it { result ≡ accepts homes x }
{
    match x {
        Instruction::Set { d, .. } => d < 30,
        Instruction::Add { d, s, t } => d < 30 && s < 32 && t < 32,
        Instruction::Mov { d, s } | Instruction::Addi { d, s, .. } | Instruction::Sign { d, s } => d
            < 30
            && s < 32,
        Instruction::Load { d, b, i, width, .. } => d < 30
            && b == 31
            && within_homes(i, width, homes),
        Instruction::Store { s, b, i, width } => s < 32 && b == 31 && within_homes(i, width, homes),
        Instruction::Call | Instruction::Ret | Instruction::Halt => false,
    }
}

// The index of the first instruction that a body may not have, or that is one too many.
pub(crate) fn body_fault(body: &[Instruction], homes: u16) -> Option<usize>
    ensures first_that_is_bad_or_one_too_many { result ≡ body_fault homes body.now 0 }
{
    body.iter()
        .enumerate()
        .position(|(i, x)| i >= 256 || !accepts(*x, homes))
}
