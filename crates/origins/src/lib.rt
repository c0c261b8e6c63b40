// Where a fault comes from: its layer, its number and its position; every layer's faults are located by it.
#![tactic(auto)]

ghost use Rattle.std.specs.Prelude.{◌≡◌, Some};
ghost use Rattle.origins.specs.Faults.{layer_number, fault_from, fault_text};

use std::fmt;
use std::fmt::{InlineText, Write};

// What a fault is of, from what is written down to what is run.
#[derive(Clone, Copy, PartialEq, Eq, Debug)]
pub enum Layer {
    // Descriptions, the parameters of stages, and signatures.
    Texts,
    Placing,
    Code,
    Run,
}

impl Layer {
    // A method, since a conversion to a number would not say that it is the layer's.
    pub fn number(self) -> u8
        ensures its_number { result ≡ layer_number self }
    {
        match self {
            Layer::Texts => 1,
            Layer::Placing => 2,
            Layer::Code => 3,
            Layer::Run => 4,
        }
    }
}

// The layer of a fault, its number, and where it is.
#[derive(Clone, Copy, PartialEq, Eq, Debug)]
pub struct Origin {
    pub layer: Layer,
    pub number: u8,
    // A line, a count of places held, an index in a body, or 0.
    pub position: usize,
}

// Whole under every option of a format: neither a width nor a precision cuts it.
impl fmt::Display for Origin {
    ghost output = { λ o. Some (fault_text (fault_from o)) };

    ghost styled_output = { λ o _. Some (fault_text (fault_from o)) };

    fn fmt<W: fmt::Write>(&self, f: &mut fmt::Formatter<W>) -> fmt::Result {
        let (number, position) = (self.number, self.position);
        let mut text = InlineText::<40>::new();
        write!(text, "fault {number} at {position}")?;
        f.write_str(text.as_str())
    }
}
