// Types of values: from a kind and a width, from a word, as a word, as a request.
ghost use Rattle.std.specs.Prelude.{◌≡◌, true, Some, MatchResult, ◌≢◌};
ghost use Rattle.std.specs.Fmt.{padded};
ghost use Rattle.values.specs.Kinds.{is_type};
ghost use Rattle.values.specs.declared.kinds.Kind.TheVariants.{Unsigned};
ghost use Rattle.values.specs.declared.sizes.Size.TheVariants.{One};
ghost use Rattle.values.specs.Types.{word_of, own_request, TypeWithTheWordOrNone};

use crate::kinds::Kind;
use crate::requests::Request;
use crate::sizes::Size;
use crate::unknown::Unknown;
use crate::value_type::ValueType;
use std::fmt;

impl ValueType {
    pub fn new(kind: Kind, width: Size) -> Result<ValueType, Unknown>
        ensures that_type_or_none { MatchResult result (λ t. (t.kind ≡ kind) × (t.width ≡ width)) (λ _. is_type kind width ≢ true) }
    {
        let exists = match kind {
            Kind::Unsigned | Kind::Signed => true,
            Kind::Float => width >= Size::Four,
            Kind::Address => width == Size::Four,
        };
        // A literal owes that it is one of the eleven, which is known in this branch.
        if exists {
            Ok(ValueType { kind, width })
        } else {
            Err(Unknown)
        }
    }

    // A request for this type at its own alignment, its width.
    pub fn request(self) -> Request
        ensures at_its_own_alignment { result ≡ own_request self }
    {
        Request {
            kind: self.kind,
            width: self.width,
            alignment: self.width,
        }
    }
}

// What stands where no type was written.
impl Default for ValueType {
    ghost is_default = { λ t. (t.kind ≡ Unsigned) × (t.width ≡ One) };

    fn default() -> ValueType {
        ValueType {
            kind: Kind::Unsigned,
            width: Size::One,
        }
    }
}

// From a word, as u1 or f8.
impl TryFrom<&[u8]> for ValueType {
    type Error = Unknown;

    ghost try_from_gives = { λ word. TypeWithTheWordOrNone word.now };

    fn try_from(word: &[u8]) -> Result<ValueType, Unknown> {
        let [letter, digit] = word else {
            return Err(Unknown);
        };
        let kind = Kind::try_from(char::from(*letter))?;
        let width = Size::try_from(digit.wrapping_sub(b'0'))?;
        ValueType::new(kind, width)
    }
}

impl fmt::Display for ValueType {
    ghost output = { λ t. Some (word_of t) };

    ghost styled_output = { λ t style. Some (padded style (word_of t)) };

    fn fmt<W: fmt::Write>(&self, f: &mut fmt::Formatter<W>) -> fmt::Result {
        let letter = char::from(self.kind);
        let word = [letter as u8, b'0' + self.width.bytes() as u8];
        match str::from_utf8(&word) {
            Ok(text) => f.pad(text),
            Err(_) => Err(fmt::Error),
        }
    }
}
