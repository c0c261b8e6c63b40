// The places that an allocation holds.
ghost use Rattle.std.specs.Prelude.{◌≡◌};
ghost use Rattle.place.specs.declared.pieces.Piece.TheVariants.{Register};
ghost use Rattle.place.specs.declared.pieces.Place.TheVariants.{Single};
ghost use Rattle.values.specs.declared.kinds.Kind.TheVariants.{Unsigned};
ghost use Rattle.values.specs.declared.sizes.Size.TheVariants.{One};

use place::pieces::{Piece, Place};
use values::value_type::ValueType;

// A place that was granted, and the type that it was granted for.
#[derive(Clone, Copy, PartialEq, Eq, Debug)]
pub struct Held {
    pub value: ValueType,
    pub place: Place,
}

// The most places that an allocation holds.
pub(crate) const MOST: usize = 16;

// What stands where no place is held.
impl Default for Held {
    ghost is_default = { λ h. (h.value.kind ≡ Unsigned) × (h.value.width ≡ One) × (h.place ≡ Single (Register 0)) };

    fn default() -> Held {
        Held {
            value: ValueType::default(),
            place: Place::Single(Piece::Register(0)),
        }
    }
}
