// Where the faults of a run come from, and how they are written.
ghost use Rattle.std.specs.Prelude.{◌≡◌, Some};
ghost use Rattle.origins.specs.Faults.{fault_from, fault_text};
ghost use Rattle.machine.specs.Faults.{run_fault};

use crate::RunFault;
use origins::{Layer, Origin};
use std::error::Error;
use std::fmt;

impl RunFault {
    // A run is nowhere in a text.
    pub fn origin(self) -> Origin
        ensures its_layer_number_and_position { fault_from result ≡ run_fault self }
    {
        match self {
            RunFault::MemoryTooLarge => Origin {
                layer: Layer::Run,
                number: 51,
                position: 0,
            },
        }
    }
}

impl fmt::Display for RunFault {
    ghost output = { λ f. Some (fault_text (run_fault f)) };

    ghost styled_output = { λ f _. Some (fault_text (run_fault f)) };

    fn fmt<W: fmt::Write>(&self, f: &mut fmt::Formatter<W>) -> fmt::Result {
        fmt::Display::fmt(&self.origin(), f)
    }
}

impl Error for RunFault {}
