// Widths and alignments in bytes.
ghost use Rattle.std.specs.Prelude.{◌≡◌};
ghost use Rattle.values.specs.Sizes.{bytes, round_up, SizeOfTheBytesOrNone};

use crate::unknown::Unknown;

#[derive(Clone, Copy, PartialEq, Eq, PartialOrd, Ord, Debug)]
pub enum Size {
    One,
    Two,
    Four,
    Eight,
}

impl Size {
    // A method, since a conversion to a number would not say that it counts bytes.
    pub fn bytes(self) -> u16
        ensures its_number_of_bytes { result ≡ bytes self }
    {
        match self {
            Size::One => 1,
            Size::Two => 2,
            Size::Four => 4,
            Size::Eight => 8,
        }
    }

    // The least multiple of this size that is at least n.
    pub fn round_up(self, n: u16) -> u32
        ensures least_multiple_not_below_n { result ≡ round_up (bytes self) n }
    {
        let size = u32::from(self.bytes());
        (u32::from(n) + (size - 1)) / size * size
    }
}

impl TryFrom<u8> for Size {
    type Error = Unknown;

    ghost try_from_gives = { SizeOfTheBytesOrNone };

    fn try_from(bytes: u8) -> Result<Size, Unknown> {
        match bytes {
            1 => Ok(Size::One),
            2 => Ok(Size::Two),
            4 => Ok(Size::Four),
            8 => Ok(Size::Eight),
            _ => Err(Unknown),
        }
    }
}
