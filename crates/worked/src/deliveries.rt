// A call that was worked out, from any registers and any memory.
ghost use Rattle.std.specs.Prelude.{◌≡◌, IsOkAnd};
ghost use Rattle.histories.specs.Events.{used_of};
ghost use Rattle.call.specs.Astray.{unused};
ghost use Rattle.worked.specs.Piles.{wide};
ghost use Rattle.worked.specs.Deliveries.{pair, start, contents, WorkedCallDelivers};

use crate::tables::{S8, U1, U2};
use adjust::Adjust;
use banks::bits::Bits;
use blocks::up::Up;
use call::calls::call;
use call::ran::Ran;
use call::sides::{Routine, Side};
use call_faults::CallFault;
use histories::events::UsedPile;
use histories::listeners::Silence;
use machine::{Instruction, Width};
use place::registers::RegisterSet;
use sides::over::Over;
use stage::{ParameterFault, Stage};

type Wide = Adjust<Over<Bits, Up>>;

type Pair = Adjust<Bits>;

// Copies the argument of 8 bytes, which has the second home, to the home of the result, which is the fourth.
const BODY: [Instruction; 4] = [
    Instruction::Load {
        d: 0,
        b: 31,
        i: 8,
        width: Width::Four,
        signed: false,
    },
    Instruction::Store {
        s: 0,
        b: 31,
        i: 24,
        width: Width::Four,
    },
    Instruction::Load {
        d: 1,
        b: 31,
        i: 12,
        width: Width::Four,
        signed: false,
    },
    Instruction::Store {
        s: 1,
        b: 31,
        i: 28,
        width: Width::Four,
    },
];

// Four registers and then the block, every value at least 4 bytes wide.
fn wide() -> Result<Wide, ParameterFault>
    ensures is_the_wide_pile { IsOkAnd result (λ s. ⟦<Wide as Stage>⟧.profile s ≡ wide) }
{
    let bits = Bits::new(&[0, 1, 2, 3])?;
    let up = Up::new(8)?;
    let pile = Adjust::widen(4, Over::new(bits, up))?;
    Ok(pile)
}

// Two registers, every value at least 4 bytes wide.
fn pair() -> Result<Pair, ParameterFault>
    ensures is_the_pair { IsOkAnd result (λ s. ⟦<Pair as Stage>⟧.profile s ≡ pair) }
{
    let bits = Bits::new(&[0, 1])?;
    let pile = Adjust::widen(4, bits)?;
    Ok(pile)
}

// A side of piles that nothing came to before.
fn side() -> Result<Side<UsedPile<'static, Wide>, UsedPile<'static, Pair>>, ParameterFault>
    ensures has_both_piles_unused { IsOkAnd result (λ s. (used_of ⟦<Wide as Stage>⟧ s.arguments ≡ unused wide)
        × (used_of ⟦<Pair as Stage>⟧ s.results ≡ unused pair)) }
{
    Ok(Side {
        arguments: UsedPile {
            pile: wide()?,
            past: &[],
        },
        results: UsedPile {
            pile: pair()?,
            past: &[],
        },
    })
}

// Calls with u1, s8 and u2, and s8 as the result, from these registers and this memory, but that the stack pointer is put
// at 512: the caller's homes lie from there on.
pub fn worked_call(
    registers: &mut [u32; 32],
    memory: &mut [u8; 1024],
) -> Result<Result<Ran, CallFault>, ParameterFault>
    ensures is_made_and_delivers { IsOkAnd result (WorkedCallDelivers
        (start registers.old memory.old) (contents registers.new memory.new)) }
{
    let bench = side()?;
    let core = side()?;
    let routine = Routine {
        arguments: &[U1, S8, U2],
        results: &[S8],
        kept: RegisterSet { bits: 0x0FFF_0000 },
        body: &BODY,
    };
    registers[31] = 512;
    let mut caller = [Instruction::Halt; 32];
    let mut callee = [Instruction::Halt; 32];
    let called = call(
        bench,
        core,
        &mut Silence,
        routine,
        &mut caller,
        &mut callee,
        registers,
        memory,
        512,
    );
    Ok(called.answer)
}
