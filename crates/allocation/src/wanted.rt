// Requests that ask for one of the eleven types.
ghost use Rattle.std.specs.Prelude.{◌≡◌};
ghost use Rattle.std.specs.Option.{option_map};
ghost use Rattle.std.specs.Result.{result_ok};

use crate::asked::Asked;
use values::requests::Request;
use values::sizes::Size;
use values::unknown::Unknown;
use values::value_type::ValueType;

// A type, and the alignment to place it at.
#[derive(Clone, Copy, PartialEq, Eq, Debug)]
pub(crate) struct Wanted {
    pub(crate) value: ValueType,
    pub(crate) alignment: Size,
}

impl TryFrom<Asked> for Wanted {
    ghost use Rattle.allocation.specs.Rules.{request_for, request_of};

    type Error = Unknown;

    ghost try_from_gives = { λ q r. option_map request_for (result_ok r) ≡ request_of q };

    fn try_from(asked: Asked) -> Result<Wanted, Unknown> {
        let width = Size::try_from(asked.width)?;
        let alignment = Size::try_from(asked.alignment)?;
        let value = ValueType::new(asked.kind, width)?;
        Ok(Wanted { value, alignment })
    }
}

impl From<Wanted> for Request {
    ghost use Rattle.allocation.specs.Rules.{request_for};

    ghost from_gives = { λ t r. r ≡ request_for t };

    fn from(wanted: Wanted) -> Request {
        Request {
            kind: wanted.value.kind,
            width: wanted.value.width,
            alignment: wanted.alignment,
        }
    }
}
