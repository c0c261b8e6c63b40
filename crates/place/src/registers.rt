// Sets of registers.
ghost use Rattle.std.specs.Prelude.{◌≡◌, ◌<◌, bit_or};
ghost use Rattle.place.specs.Registers.{has, with, apart};

// Bit r stands for register r. A set of the library would allocate, or want a name for each bit.
#[derive(Clone, Copy, PartialEq, Eq, Debug)]
pub struct RegisterSet {
    pub bits: u32,
}

impl RegisterSet {
    pub const EMPTY: RegisterSet = RegisterSet { bits: 0 };

    pub fn contains(self, r: u8) -> bool
        ensures whether_it_has_the_register { result ≡ has self.bits r }
    {
        r < 32 && (self.bits >> r) % 2 == 1
    }

    // This set and register r; no set has one above 31.
    pub fn with(self, r: u8) -> RegisterSet
        ensures one_register_more { result.bits ≡ with self.bits r }
    {
        if r < 32 {
            RegisterSet {
                bits: self.bits | (1 << r),
            }
        } else {
            self
        }
    }

    pub fn union(self, other: RegisterSet) -> RegisterSet
        ensures the_registers_of_both { result.bits ≡ bit_or self.bits other.bits }
    {
        RegisterSet {
            bits: self.bits | other.bits,
        }
    }

    pub fn is_disjoint(self, other: RegisterSet) -> bool
        ensures whether_no_register_is_in_both { result ≡ apart self.bits other.bits }
    {
        self.bits & other.bits == 0
    }
}
