// Why no call is made.
#![tactic(auto)]

ghost use Rattle.std.specs.Prelude.{◌≡◌, Some};
ghost use Rattle.origins.specs.Faults.{fault_from, fault_text};
ghost use Rattle.call_faults.specs.Faults.{call_fault_of};
ghost use Rattle.call_faults.specs.declared.CallFault.TheVariants.{Placement, Code, Run};

use allocation::faults::PlacementFault;
use emit::faults::CodeFault;
use machine::RunFault;
use origins::Origin;
use std::error::Error;
use std::fmt;

// The fault of the layer that refused, whole.
#[derive(Clone, Copy, PartialEq, Eq, Debug)]
pub enum CallFault {
    Placement(PlacementFault),
    Code(CodeFault),
    Run(RunFault),
}

impl CallFault {
    // Those of the fault of the layer that refused.
    pub fn origin(self) -> Origin
        ensures its_layer_number_and_position { fault_from result ≡ call_fault_of self }
    {
        match self {
            Self::Placement(fault) => fault.origin(),
            Self::Code(fault) => fault.origin(),
            Self::Run(fault) => fault.origin(),
        }
    }
}

impl fmt::Display for CallFault {
    ghost output = { λ f. Some (fault_text (call_fault_of f)) };

    ghost styled_output = { λ f _. Some (fault_text (call_fault_of f)) };

    fn fmt<W: fmt::Write>(&self, f: &mut fmt::Formatter<W>) -> fmt::Result {
        fmt::Display::fmt(&self.origin(), f)
    }
}

impl Error for CallFault {}

impl From<PlacementFault> for CallFault {
    ghost from_gives = { λ f c. c ≡ Placement f };

    fn from(fault: PlacementFault) -> CallFault {
        CallFault::Placement(fault)
    }
}

impl From<CodeFault> for CallFault {
    ghost from_gives = { λ f c. c ≡ Code f };

    fn from(fault: CodeFault) -> CallFault {
        CallFault::Code(fault)
    }
}

impl From<RunFault> for CallFault {
    ghost from_gives = { λ f c. c ≡ Run f };

    fn from(fault: RunFault) -> CallFault {
        CallFault::Run(fault)
    }
}
