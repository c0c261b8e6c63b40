// What instructions and outcomes print.
ghost use Rattle.std.specs.Prelude.{Some};
ghost use Rattle.std.specs.Fmt.{padded};
ghost use Rattle.machine.specs.Text.{instruction_text, outcome_text};

use crate::{Instruction, Outcome};
use std::fmt;

// As LOAD r1 r31 -8 4 zero: the operands in the order of their fields, a width as its bytes.
impl fmt::Display for Instruction {
    ghost output = { λ i. Some (instruction_text i) };

    fn fmt<W: fmt::Write>(&self, f: &mut fmt::Formatter<W>) -> fmt::Result {
        match *self {
            Instruction::Set { d, n } => write!(f, "SET r{d} {n}"),
            Instruction::Mov { d, s } => write!(f, "MOV r{d} r{s}"),
            Instruction::Add { d, s, t } => write!(f, "ADD r{d} r{s} r{t}"),
            Instruction::Addi { d, s, i } => write!(f, "ADDI r{d} r{s} {i}"),
            Instruction::Sign { d, s } => write!(f, "SIGN r{d} r{s}"),
            Instruction::Load {
                d,
                b,
                i,
                width,
                signed,
            } => {
                let count = width.bytes();
                let by = if signed { "sign" } else { "zero" };
                write!(f, "LOAD r{d} r{b} {i} {count} {by}")
            }
            Instruction::Store { s, b, i, width } => {
                let count = width.bytes();
                write!(f, "STORE r{s} r{b} {i} {count}")
            }
            Instruction::Call => f.write_str("CALL"),
            Instruction::Ret => f.write_str("RET"),
            Instruction::Halt => f.write_str("HALT"),
        }
    }
}

impl fmt::Display for Outcome {
    ghost output = { λ o. Some (outcome_text o) };

    ghost styled_output = { λ o style. Some (padded style (outcome_text o)) };

    fn fmt<W: fmt::Write>(&self, f: &mut fmt::Formatter<W>) -> fmt::Result {
        match self {
            Outcome::Ended => f.pad("ended"),
            Outcome::Stuck => f.pad("stuck"),
            Outcome::Spent => f.pad("spent"),
        }
    }
}
