// The registers of a bank.
ghost use Rattle.std.specs.Prelude.{◌≡◌, ◌≤◌, true, false, length, IfOk, MatchOption};
ghost use Rattle.stage.specs.Faults.{fault_of};
ghost use Rattle.banks.specs.Lists.{distinct, set_of, list_fault};

use arrayvec::ArrayVec;
use place::registers::RegisterSet;
use stage::ParameterFault;

// 1 to 16 distinct registers of r0 to r27, in order, and the set of them.
#[derive(Drop)]
pub struct RegisterList {
    pub(crate) registers: ArrayVec<u8, 16>,
    pub(crate) set: RegisterSet,
    ghost some: { 1 ≤ length registers.items },
    ghost few: { length registers.items ≤ 16 },
    ghost distinct: { distinct registers.items ≡ true },
    ghost gathered: { set.bits ≡ set_of registers.items },
}

impl RegisterList {
    pub(crate) fn new(list: &[u8]) -> Result<RegisterList, ParameterFault>
        ensures refused_by_count_then_by_register { fault_of result ≡ list_fault list.now }
        ensures holds_the_list { IfOk result (λ l. l.registers.items ≡ list.now) }
    {
        if list.is_empty() || list.len() > 16 {
            return Err(ParameterFault::Form);
        }
        let registers = ArrayVec::try_from(list).unwrap();
        let set = gather(list).ok_or(ParameterFault::Range)?;
        Ok(RegisterList { registers, set })
    }
}

// The set of a list of distinct registers of r0 to r27; none for another list.
pub fn gather(list: &[u8]) -> Option<RegisterSet>
    ensures its_set_or_none { MatchOption result (distinct list.now ≡ false) (λ s. (distinct list.now ≡ true) × (s.bits ≡ set_of list.now)) }
{
    let mut set = RegisterSet::EMPTY;
    for r in list {
        if *r > 27 || set.contains(*r) {
            return None;
        }
        set = set.with(*r);
    }
    Some(set)
}
