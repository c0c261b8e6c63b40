// Where a value is put.
ghost use Rattle.std.specs.Prelude.{Some};
ghost use Rattle.place.specs.Pieces.{piece_text, place_text};

use std::fmt;
use values::sizes::Size;

#[derive(Clone, Copy, PartialEq, Eq, Debug)]
pub enum Piece {
    // A whole register of 4 bytes.
    Register(u8),
    // Bytes of the block, from an offset on.
    Block { offset: u16, width: Size },
}

#[derive(Clone, Copy, PartialEq, Eq, Debug)]
pub enum Place {
    Single(Piece),
    // A low and a high piece.
    Double(Piece, Piece),
}

// As r3 or +8/4.
impl fmt::Display for Piece {
    ghost output = { λ p. Some (piece_text p) };

    fn fmt<W: fmt::Write>(&self, f: &mut fmt::Formatter<W>) -> fmt::Result {
        match self {
            Piece::Register(r) => write!(f, "r{r}"),
            Piece::Block { offset, width } => write!(f, "+{offset}/{}", width.bytes()),
        }
    }
}

// As r3, or r3 r4.
impl fmt::Display for Place {
    ghost output = { λ p. Some (place_text p) };

    fn fmt<W: fmt::Write>(&self, f: &mut fmt::Formatter<W>) -> fmt::Result {
        match self {
            Place::Single(low) => write!(f, "{low}"),
            Place::Double(low, high) => write!(f, "{low} {high}"),
        }
    }
}
