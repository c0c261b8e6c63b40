// The tree of a described pile: a stage itself, by recursion.
ghost use Rattle.std.specs.Prelude.{◌≡◌, IfErr};
ghost use Rattle.std.specs.Result.{result_ok};
ghost use Rattle.described.specs.Piles.{tree_book, tree_blame, tree_profile};
ghost use Rattle.described.specs.PilesLemmas.{tree_lawful};

use adjust::Change;
use banks::bits::Bits;
use banks::count::Count;
use blocks::up::Up;
use conditions::Test;
use place::pieces::Place;
use place::registers::RegisterSet;
use stage::{Refusal, Stage};
use values::requests::Request;

// Its stages, through boxes. Those that a refusal can come from have the number of their line.
#[derive(Drop)]
pub(crate) enum Tree {
    Count {
        line: u32,
        bank: Count,
    },
    Bits {
        line: u32,
        bank: Bits,
    },
    Up {
        line: u32,
        block: Up,
    },
    // Widen and raise.
    Adjust {
        change: Change,
        below: Box<Tree>,
    },
    Choose {
        test: Test,
        first: Box<Tree>,
        second: Box<Tree>,
    },
    Over {
        first: Box<Tree>,
        second: Box<Tree>,
    },
    Shut {
        line: u32,
        closed: bool,
        below: Box<Tree>,
    },
}

impl Stage for Tree {
    ghost book = { tree_book };

    ghost blame = { tree_blame };

    ghost profile = { tree_profile };

    ghost lawful = { tree_lawful };

    fn place(&mut self, request: Request) -> Result<Place, Refusal> {
        match self {
            Tree::Count { line, bank } => at_line(*line, bank.place(request)),
            Tree::Bits { line, bank } => at_line(*line, bank.place(request)),
            Tree::Up { line, block } => at_line(*line, block.place(request)),
            Tree::Adjust { change, below } => below.place(change.apply(request)),
            Tree::Choose {
                test,
                first,
                second,
            } => {
                if test.meets(request) {
                    first.place(request)
                } else {
                    second.place(request)
                }
            }
            Tree::Over { first, second } => match first.place(request) {
                Ok(place) => Ok(place),
                Err(_) => second.place(request),
            },
            Tree::Shut {
                line,
                closed,
                below,
            } => {
                if *closed {
                    return Err(Refusal { line: *line });
                }
                let answer = below.place(request);
                *closed = answer.is_err();
                answer
            }
        }
    }

    fn clear(&mut self) {
        match self {
            Tree::Count { bank, .. } => bank.clear(),
            Tree::Bits { bank, .. } => bank.clear(),
            Tree::Up { block, .. } => block.clear(),
            Tree::Adjust { below, .. } => below.clear(),
            Tree::Choose { first, second, .. } => {
                first.clear();
                second.clear();
            }
            Tree::Over { first, second } => {
                first.clear();
                second.clear();
            }
            Tree::Shut { closed, below, .. } => {
                *closed = false;
                below.clear();
            }
        }
    }

    fn registers(&self) -> RegisterSet {
        match self {
            Tree::Count { bank, .. } => bank.registers(),
            Tree::Bits { bank, .. } => bank.registers(),
            Tree::Up { block, .. } => block.registers(),
            Tree::Adjust { below, .. } | Tree::Shut { below, .. } => below.registers(),
            Tree::Choose { first, second, .. } | Tree::Over { first, second } => {
                first.registers().union(second.registers())
            }
        }
    }

    fn block(&self) -> bool {
        match self {
            Tree::Count { bank, .. } => bank.block(),
            Tree::Bits { bank, .. } => bank.block(),
            Tree::Up { block, .. } => block.block(),
            Tree::Adjust { below, .. } | Tree::Shut { below, .. } => below.block(),
            Tree::Choose { first, second, .. } | Tree::Over { first, second } => {
                first.block() | second.block()
            }
        }
    }

    fn sound(&self) -> bool {
        match self {
            Tree::Count { bank, .. } => bank.sound(),
            Tree::Bits { bank, .. } => bank.sound(),
            Tree::Up { block, .. } => block.sound(),
            Tree::Adjust { below, .. } | Tree::Shut { below, .. } => below.sound(),
            Tree::Choose { first, second, .. } | Tree::Over { first, second } => {
                let apart = first.registers().is_disjoint(second.registers());
                let blocks = first.block() & second.block();
                first.sound() & (second.sound() & (apart & !blocks))
            }
        }
    }

    fn endless(&self, request: Request) -> bool {
        match self {
            Tree::Count { bank, .. } => bank.endless(request),
            Tree::Bits { bank, .. } => bank.endless(request),
            Tree::Up { block, .. } => block.endless(request),
            Tree::Adjust { change, below } => below.endless(change.apply(request)),
            Tree::Choose {
                test,
                first,
                second,
            } => {
                if test.meets(request) {
                    first.endless(request)
                } else {
                    second.endless(request)
                }
            }
            Tree::Over { first, second } => first.endless(request) | second.endless(request),
            Tree::Shut { .. } => false,
        }
    }

    fn reach(&self) -> u16 {
        match self {
            Tree::Count { bank, .. } => bank.reach(),
            Tree::Bits { bank, .. } => bank.reach(),
            Tree::Up { block, .. } => block.reach(),
            Tree::Adjust { below, .. } | Tree::Shut { below, .. } => below.reach(),
            Tree::Choose { first, second, .. } | Tree::Over { first, second } => {
                first.reach().max(second.reach())
            }
        }
    }
}

// A bottom's answer, where a refusal names its line.
fn at_line(line: u32, answer: Result<Place, Refusal>) -> Result<Place, Refusal>
    ensures grants_the_same { result_ok result ≡ result_ok answer }
    ensures refusal_names_the_line { IfErr result (λ f. f.line ≡ line) }
{
    answer.map_err(|_| Refusal { line })
}
