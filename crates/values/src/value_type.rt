// The eleven types of values.
ghost use Rattle.std.specs.Prelude.{◌≡◌, true};
ghost use Rattle.values.specs.Kinds.{is_type};

use crate::kinds::Kind;
use crate::sizes::Size;

#[derive(Clone, Copy, PartialEq, Eq, Debug)]
pub struct ValueType {
    pub kind: Kind,
    pub width: Size,
    ghost one_of_the_eleven: { is_type kind width ≡ true },
}
