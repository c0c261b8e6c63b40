// Requests as they come to an allocation.
ghost use Rattle.std.specs.Prelude.{◌≡◌};

use values::kinds::Kind;

// A kind, and a width and an alignment in bytes, as given: numbers, since by the rules one that is no size is refused.
#[derive(Clone, Copy, PartialEq, Eq, Debug, Default)]
pub struct Asked {
    pub kind: Kind,
    pub width: u8,
    pub alignment: u8,
}

impl Asked {
    // At an alignment that is its width.
    pub fn aligned(kind: Kind, width: u8) -> Asked
        ensures kind_is_given { result.kind ≡ kind }
        ensures width_is_given { result.width ≡ width }
        ensures alignment_is_the_width { result.alignment ≡ width }
    {
        Asked {
            kind,
            width,
            alignment: width,
        }
    }
}
