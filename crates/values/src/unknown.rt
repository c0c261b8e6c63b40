// What names no kind, no size or no type.
ghost use Rattle.std.specs.Prelude.{Some, codes};
ghost use Rattle.std.specs.Fmt.{padded};

use std::error::Error;
use std::fmt;

#[derive(Clone, Copy, PartialEq, Eq, Debug)]
pub struct Unknown;

impl fmt::Display for Unknown {
    ghost output = { λ _. Some (codes "no type") };

    ghost styled_output = { λ _ style. Some (padded style (codes "no type")) };

    fn fmt<W: fmt::Write>(&self, f: &mut fmt::Formatter<W>) -> fmt::Result {
        f.pad("no type")
    }
}

impl Error for Unknown {}
