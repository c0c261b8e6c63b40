// The tests by which `choose` tells requests apart.
#![tactic(auto)]

ghost use Rattle.std.specs.Prelude.{◌≡◌, IfOk};
ghost use Rattle.stage.specs.Faults.{fault_of, width_fault};
ghost use Rattle.conditions.specs.Tests.{has_kind, with_kind, kinds_fault, meets, MeetsExactly, is_of_kinds, is_at_least};

use stage::{ParameterFault, raised_size};
use values::kinds::Kind;
use values::requests::Request;
use values::sizes::Size;

// A flag for each kind: a set of the library would allocate, which no stage does, or give each kind a second name.
#[derive(Clone, Copy, PartialEq, Eq, Debug)]
struct KindSet {
    unsigned: bool,
    signed: bool,
    float: bool,
    address: bool,
}

// Two cases, since a trait with an instance for each would be longer than the match.
#[derive(Clone, Copy, PartialEq, Eq, Debug)]
enum Rule {
    Kinds(KindSet),
    // At least this wide.
    AtLeast(Size),
}

#[derive(Clone, Copy, PartialEq, Eq, Debug)]
pub struct Test {
    rule: Rule,
}

impl KindSet {
    fn has(self, kind: Kind) -> bool
        ensures whether_the_kind_is_in_it { result ≡ has_kind self kind }
    {
        match kind {
            Kind::Unsigned => self.unsigned,
            Kind::Signed => self.signed,
            Kind::Float => self.float,
            Kind::Address => self.address,
        }
    }

    fn with(self, kind: Kind) -> KindSet
        ensures one_kind_more { result ≡ with_kind self kind }
    {
        match kind {
            Kind::Unsigned => KindSet {
                unsigned: true,
                ..self
            },
            Kind::Signed => KindSet {
                signed: true,
                ..self
            },
            Kind::Float => KindSet {
                float: true,
                ..self
            },
            Kind::Address => KindSet {
                address: true,
                ..self
            },
        }
    }
}

impl Test {
    // Whether a request's kind is one of these, of which there is one at least and none twice.
    pub fn of_kinds(kinds: &[Kind]) -> Result<Test, ParameterFault>
        ensures refused_if_empty_or_repeated { fault_of result ≡ kinds_fault kinds.now }
        ensures meets_exactly_requests_of_these_kinds { IfOk result (MeetsExactly (is_of_kinds kinds.now)) }
    {
        if kinds.is_empty() {
            return Err(ParameterFault::Form);
        }
        let mut set = KindSet {
            unsigned: false,
            signed: false,
            float: false,
            address: false,
        };
        for kind in kinds {
            if set.has(*kind) {
                return Err(ParameterFault::Form);
            }
            set = set.with(*kind);
        }
        Ok(Test {
            rule: Rule::Kinds(set),
        })
    }

    // Whether a request is at least so wide: 2, 4 or 8 bytes.
    pub fn at_least(width: u8) -> Result<Test, ParameterFault>
        ensures refused_unless_2_4_or_8 { fault_of result ≡ width_fault width }
        ensures meets_exactly_requests_so_wide { IfOk result (MeetsExactly (is_at_least width)) }
    {
        let size = raised_size(width)?;
        Ok(Test {
            rule: Rule::AtLeast(size),
        })
    }

    pub fn meets(self, request: Request) -> bool
        ensures whether_the_request_meets_it { result ≡ meets self request }
    {
        match self.rule {
            Rule::Kinds(set) => set.has(request.kind),
            Rule::AtLeast(size) => size <= request.width,
        }
    }
}
