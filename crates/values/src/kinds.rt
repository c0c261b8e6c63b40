// Kinds of values, and the letters that stand for them.
ghost use Rattle.std.specs.Prelude.{◌≡◌};
ghost use Rattle.values.specs.Kinds.{letter_of, KindOfTheLetterOrNone};
ghost use Rattle.values.specs.declared.kinds.Kind.TheVariants.{Unsigned};

use crate::unknown::Unknown;

#[derive(Clone, Copy, PartialEq, Eq, Debug)]
pub enum Kind {
    Unsigned,
    Signed,
    // The bits of a floating-point number.
    Float,
    Address,
}

// What stands where no kind was given.
impl Default for Kind {
    ghost is_default = { λ k. k ≡ Unsigned };

    fn default() -> Kind {
        Self::Unsigned
    }
}

impl From<Kind> for char {
    ghost from_gives = { λ k letter. letter ≡ letter_of k };

    fn from(kind: Kind) -> char {
        match kind {
            Kind::Unsigned => 'u',
            Kind::Signed => 's',
            Kind::Float => 'f',
            Kind::Address => 'a',
        }
    }
}

impl TryFrom<char> for Kind {
    type Error = Unknown;

    ghost try_from_gives = { KindOfTheLetterOrNone };

    fn try_from(letter: char) -> Result<Kind, Unknown> {
        match letter {
            'u' => Ok(Kind::Unsigned),
            's' => Ok(Kind::Signed),
            'f' => Ok(Kind::Float),
            'a' => Ok(Kind::Address),
            _ => Err(Unknown),
        }
    }
}
