// What can come to an allocation.
use allocation::asked::Asked;

// What the types let come to an open allocation: a request, or that it is frozen and reopened. What is frozen can only be
// reopened, so no list of calls is left out.
#[derive(Clone, Copy, PartialEq, Eq, Debug)]
pub enum Event {
    Place(Asked),
    Reopen,
}

// A pile, and what came to its allocation since it was opened.
#[derive(Drop)]
pub struct UsedPile<'p, P> {
    pub pile: P,
    pub past: &'p [Event],
}
