// The piles of the worked cases, each asked for a list of types: with the making of the piles apart from the asking, the
// proofs of the cases did not close.
ghost use Rattle.worked.specs.Piles.{wide, shut_pair, open_pair, count_pair, shared};
ghost use Rattle.worked.specs.Trials.{Gives, Tells, asks, expects};

use crate::trial::gives;
use adjust::Adjust;
use allocation::answers::Answer;
use allocation::asked::Asked;
use banks::bits::Bits;
use banks::count::Count;
use blocks::up::Up;
use shut::Shut;
use sides::over::Over;
use stage::ParameterFault;

// Four registers and then the block, every value at least 4 bytes wide.
pub(crate) fn wide_gives(lines: &[(Asked, Answer)], block: u32) -> Result<bool, ParameterFault>
    ensures whether_it_gives_what_is_expected { Tells result (Gives wide (asks lines.now) (expects lines.now) block) }
{
    let bits = Bits::new(&[0, 1, 2, 3])?;
    let up = Up::new(8)?;
    let pile = Adjust::widen(4, Over::new(bits, up))?;
    Ok(gives(pile, lines, block))
}

// Two registers until one is refused, and the block.
pub(crate) fn shut_pair_gives(lines: &[(Asked, Answer)], block: u32) -> Result<bool, ParameterFault>
    ensures whether_it_gives_what_is_expected { Tells result (Gives shut_pair (asks lines.now) (expects lines.now) block) }
{
    let bits = Bits::new(&[0, 1])?;
    let up = Up::new(8)?;
    let pile = Over::new(Shut::new(bits), up);
    Ok(gives(pile, lines, block))
}

// Two registers, and the block.
pub(crate) fn open_pair_gives(lines: &[(Asked, Answer)], block: u32) -> Result<bool, ParameterFault>
    ensures whether_it_gives_what_is_expected { Tells result (Gives open_pair (asks lines.now) (expects lines.now) block) }
{
    let bits = Bits::new(&[0, 1])?;
    let up = Up::new(8)?;
    let pile = Over::new(bits, up);
    Ok(gives(pile, lines, block))
}

// Two registers, each for a value of 4 bytes.
pub(crate) fn count_pair_gives(
    lines: &[(Asked, Answer)],
    block: u32,
) -> Result<bool, ParameterFault>
    ensures whether_it_gives_what_is_expected { Tells result (Gives count_pair (asks lines.now) (expects lines.now) block) }
{
    let count = Count::new(&[0, 1])?;
    Ok(gives(count, lines, block))
}

// Two banks that have a register in common.
pub(crate) fn shared_gives(lines: &[(Asked, Answer)], block: u32) -> Result<bool, ParameterFault>
    ensures whether_it_gives_what_is_expected { Tells result (Gives shared (asks lines.now) (expects lines.now) block) }
{
    let count = Count::new(&[0])?;
    let bits = Bits::new(&[0, 1])?;
    let pile = Over::new(count, bits);
    Ok(gives(pile, lines, block))
}
