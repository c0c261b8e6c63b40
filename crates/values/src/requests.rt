// What is asked of a stage.
ghost use Rattle.std.specs.Prelude.{◌≡◌};
ghost use Rattle.values.specs.Requests.{widened, raised};

use crate::kinds::Kind;
use crate::sizes::Size;

#[derive(Clone, Copy, PartialEq, Eq, Debug)]
pub struct Request {
    pub kind: Kind,
    pub width: Size,
    pub alignment: Size,
}

impl Request {
    // The same request, at least m wide. `raised` differs in the field alone; one method that is told which is longer than both.
    pub fn widened(self, m: Size) -> Request
        ensures only_a_smaller_width_is_raised { result ≡ widened m self }
    {
        Request {
            width: self.width.max(m),
            ..self
        }
    }

    // The same request, aligned to at least m.
    pub fn raised(self, m: Size) -> Request
        ensures only_a_smaller_alignment_is_raised { result ≡ raised m self }
    {
        Request {
            alignment: self.alignment.max(m),
            ..self
        }
    }
}
