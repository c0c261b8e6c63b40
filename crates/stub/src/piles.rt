// The piles that values are placed by.
use adjust::Adjust;
use banks::bits::Bits;
use banks::count::Count;
use blocks::up::Up;
use conditions::Test;
use shut::Shut;
use sides::choose::Choose;
use sides::over::Over;
use stage::ParameterFault;
use values::kinds::Kind;

// Every value at least 4 bytes wide; registers first, then the block.
pub(crate) fn wide() -> Result<Adjust<Over<Bits, Up>>, ParameterFault> {
    let pile = Over::new(Bits::new(&[0, 1, 2, 3])?, Up::new(8)?);
    Adjust::widen(4, pile)
}

// Floats in registers of their own, and the rest in the block, aligned to 4 at least.
pub(crate) fn floats_apart() -> Result<Choose<Count, Adjust<Up>>, ParameterFault> {
    let rest = Adjust::raise(4, Up::new(8)?)?;
    Ok(Choose::new(Test::of_kinds(&[Kind::Float])?, Count::new(&[4, 5])?, rest))
}

// The pile of two sides with unlike pasts: registers until one is refused, then the block.
pub(crate) fn convention() -> Result<Over<Shut<Bits>, Up>, ParameterFault> {
    Ok(Over::new(Shut::new(Bits::new(&[0, 1])?), Up::new(8)?))
}
