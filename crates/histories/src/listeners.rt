// Whom answers are told as they come.
ghost use Rattle.std.specs.Prelude.{◌≡◌};
ghost use Rattle.histories.specs.Heard.{Heard, heard_of};

use allocation::answers::Answer;
use arrayvec::ArrayVec;

// Is told each answer as it comes.
pub trait Listener {
    // What it may become as it hears an answer.
    ghost hears: { Self → Heard → Self → Type 0 };

    fn hear(&mut self, answer: Answer)
        ensures hears_it { hears self.old (heard_of answer) self.new };
}

// Keeps nothing.
#[derive(Clone, Copy, PartialEq, Eq, Debug, Default)]
pub struct Silence;

impl Listener for Silence {
    ghost hears = { λ s a t. s ≡ t };

    fn hear(&mut self, _answer: Answer) {}
}

// Keeps the answers, as long as there is room.
#[derive(Drop)]
pub struct Record<const N: usize> {
    pub answers: ArrayVec<Option<Answer>, N>,
}

impl<const N: usize> Listener for Record<N> {
    ghost use Rattle.histories.specs.Recording.{heard_by, with_answer};

    ghost hears = { λ s a t. heard_by t ≡ with_answer N (heard_by s) a };

    fn hear(&mut self, answer: Answer) {
        if !self.answers.is_full() {
            self.answers.push(Some(answer));
        }
    }
}
