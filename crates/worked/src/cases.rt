// Calls that were worked out by hand.
ghost use Rattle.std.specs.Prelude.{◌≡◌, true, Ok};
ghost use Rattle.worked.specs.Cases.{WorkedCases};

use crate::piles::{count_pair_gives, open_pair_gives, shared_gives, shut_pair_gives, wide_gives};
use crate::tables::*;
use stage::ParameterFault;

fn wide_cases() -> Result<bool, ParameterFault>
    ensures both_come_out { result ≡ Ok true }
{
    let one = wide_gives(&[(U1, R0), (S8, R2_R3), (U2, AT_0)], 8)?;
    let other = wide_gives(
        &[(F8, R0_R1), (F8, R2_R3), (U1, AT_0), (S8, AT_8_AND_12)],
        16,
    )?;
    Ok(one & other)
}

fn pair_cases() -> Result<bool, ParameterFault>
    ensures both_come_out { result ≡ Ok true }
{
    let shut = shut_pair_gives(&[(U4, R0), (U8, AT_0_AND_4), (U4, AT_8)], 16)?;
    let open = open_pair_gives(&[(U4, R0), (U8, AT_0_AND_4), (U4, R1)], 8)?;
    Ok(shut & open)
}

fn refused_cases() -> Result<bool, ParameterFault>
    ensures both_come_out { result ≡ Ok true }
{
    let count = count_pair_gives(&[(U8, REFUSED), (U4, R0)], 0)?;
    let unsound = shared_gives(
        &[
            (U1, UNSOUND),
            (U2, UNSOUND),
            (U4, UNSOUND),
            (U8, UNSOUND),
            (S1, UNSOUND),
            (S2, UNSOUND),
            (S4, UNSOUND),
            (S8, UNSOUND),
            (F4, UNSOUND),
            (F8, UNSOUND),
            (A4, UNSOUND),
        ],
        0,
    )?;
    Ok(count & unsound)
}

// Whether the cases come out as they were worked out.
pub fn worked_cases() -> Result<bool, ParameterFault>
    ensures every_case_comes_out { result ≡ Ok true }
    ensures worked_cases_hold { WorkedCases }
{
    let wide = wide_cases()?;
    let pairs = pair_cases()?;
    let refused = refused_cases()?;
    Ok(wide & (pairs & refused))
}
