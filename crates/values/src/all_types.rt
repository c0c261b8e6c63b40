// The types that there are, in one list.
ghost use Rattle.std.specs.Prelude.{◌≡◌, ◌≢◌, Contains, AllPairs};
ghost use Rattle.values.specs.Types.{all_types};

use crate::kinds::Kind;
use crate::sizes::Size;
use crate::value_type::ValueType;

impl ValueType {
    // By their kinds, and of each kind the narrowest first: u1 u2 u4 u8 s1 s2 s4 s8 f4 f8 a4.
    pub const ALL: [ValueType; 11] = [
        ValueType {
            kind: Kind::Unsigned,
            width: Size::One,
        },
        ValueType {
            kind: Kind::Unsigned,
            width: Size::Two,
        },
        ValueType {
            kind: Kind::Unsigned,
            width: Size::Four,
        },
        ValueType {
            kind: Kind::Unsigned,
            width: Size::Eight,
        },
        ValueType {
            kind: Kind::Signed,
            width: Size::One,
        },
        ValueType {
            kind: Kind::Signed,
            width: Size::Two,
        },
        ValueType {
            kind: Kind::Signed,
            width: Size::Four,
        },
        ValueType {
            kind: Kind::Signed,
            width: Size::Eight,
        },
        ValueType {
            kind: Kind::Float,
            width: Size::Four,
        },
        ValueType {
            kind: Kind::Float,
            width: Size::Eight,
        },
        ValueType {
            kind: Kind::Address,
            width: Size::Four,
        },
    ];

    // `ALL`, with what holds of it: a constant has no contract.
    pub fn all() -> [ValueType; 11]
        ensures the_eleven_in_their_order { result ≡ all_types }
        ensures each_type_is_among_them { (t : ValueType) → Contains result t }
        ensures no_type_is_among_them_twice { AllPairs (λ a b. a ≢ b) result }
    {
        Self::ALL
    }
}
