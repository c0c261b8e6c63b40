// Why a call of the service is not made, or a convention not read.
ghost use Rattle.std.specs.Prelude.{◌≡◌, Some, option_map};
ghost use Rattle.origins.specs.Faults.{fault_from};
ghost use Rattle.service.specs.Faults.{fault_of, written};
ghost use Rattle.service.specs.declared.faults.Fault.TheVariants.{Description, Signature, Call};

use call_faults::CallFault;
use origins::Origin;
use pages::faults::DescriptionFault;
use signatures::fault::SignatureFault;
use std::error::Error;
use std::fmt;

// The fault of what refused, whole.
#[derive(Clone, Copy, PartialEq, Eq, Debug)]
pub enum Fault {
    Description(DescriptionFault),
    Signature(SignatureFault),
    Call(CallFault),
}

impl Fault {
    // Its layer, number and position; none for want of memory, which has no number.
    pub fn origin(self) -> Option<Origin>
        ensures its_layer_number_and_position { option_map fault_from result ≡ fault_of self }
    {
        match self {
            Self::Description(fault) => fault.origin(),
            Self::Signature(fault) => Some(fault.origin()),
            Self::Call(fault) => Some(fault.origin()),
        }
    }
}

impl fmt::Display for Fault {
    ghost output = { λ f. Some (written f) };

    ghost styled_output = { λ f _. Some (written f) };

    fn fmt<W: fmt::Write>(&self, f: &mut fmt::Formatter<W>) -> fmt::Result {
        match self {
            Self::Description(fault) => fmt::Display::fmt(fault, f),
            Self::Signature(fault) => fmt::Display::fmt(fault, f),
            Self::Call(fault) => fmt::Display::fmt(fault, f),
        }
    }
}

impl Error for Fault {}

impl From<DescriptionFault> for Fault {
    ghost from_gives = { λ f r. r ≡ Description f };

    fn from(fault: DescriptionFault) -> Fault {
        Fault::Description(fault)
    }
}

impl From<SignatureFault> for Fault {
    ghost from_gives = { λ f r. r ≡ Signature f };

    fn from(fault: SignatureFault) -> Fault {
        Fault::Signature(fault)
    }
}

impl From<CallFault> for Fault {
    ghost from_gives = { λ f r. r ≡ Call f };

    fn from(fault: CallFault) -> Fault {
        Fault::Call(fault)
    }
}
