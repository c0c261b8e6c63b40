// Signatures of routines, and the line that writes each.
ghost use Rattle.std.specs.Prelude.{◌≡◌, ◌∷◌, Some};
ghost use Rattle.std.specs.List.{flat_map};
ghost use Rattle.std.specs.Fmt.{DisplaysOnOk};
ghost use Rattle.values.specs.Types.{word_of};
ghost use Rattle.signatures.specs.Signatures.{signature_bytes};

use arrayvec::{ArrayString, ArrayVec};
use std::fmt;
use values::value_type::ValueType;

#[derive(Clone, Drop)]
pub struct Signature {
    pub name: ArrayString<8>,
    pub arguments: ArrayVec<ValueType, 16>,
    pub results: ArrayVec<ValueType, 4>,
}

// Each word of the types, behind a space.
fn write_types<W: fmt::Write>(types: &[ValueType], f: &mut fmt::Formatter<W>) -> fmt::Result
    ensures writes_their_words_behind_spaces { DisplaysOnOk W.write_str_gives f.old result (Some (flat_map (λ t. 32 ∷ word_of t) types.now)) f.new }
{
    for value in types {
        write!(f, " {value}")?;
    }
    Ok(())
}

// Its line, without the feed.
impl fmt::Display for Signature {
    ghost output = { λ s. Some (signature_bytes s) };

    fn fmt<W: fmt::Write>(&self, f: &mut fmt::Formatter<W>) -> fmt::Result {
        f.write_str(self.name.as_str())?;
        write_types(self.arguments.as_slice(), f)?;
        f.write_str(" :")?;
        write_types(self.results.as_slice(), f)
    }
}
