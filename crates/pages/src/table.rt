// The eight stage words, and what follows each on its line.
ghost use Rattle.std.specs.Prelude.{◌≡◌, None, Some, MatchOption, map};
ghost use Rattle.std.specs.List.{AllByRecursion};
ghost use Rattle.pages.specs.Table.{stage_with, stage_among, IsTheEntry};

// What a line makes.
#[derive(Clone, Copy, PartialEq, Eq, Debug)]
pub enum StageWord {
    Count,
    Bits,
    Up,
    Widen,
    Raise,
    Choose,
    Over,
    Shut,
}

// What stands right after a stage word.
#[derive(Clone, Copy, PartialEq, Eq, Debug)]
pub enum Form {
    Registers,
    Number,
    Test,
    Nothing,
}

#[derive(Clone, Copy)]
pub struct Entry {
    pub stage: StageWord,
    pub word: &'static [u8],
    pub parameter: Form,
    // How many numbers of stages below stand at the end of the line.
    pub below: usize,
}

#[rattlefmt::skip]
pub const TABLE: [Entry; 8] = [
    Entry { stage: StageWord::Count, word: b"count", parameter: Form::Registers, below: 0 },
    Entry { stage: StageWord::Bits, word: b"bits", parameter: Form::Registers, below: 0 },
    Entry { stage: StageWord::Up, word: b"up", parameter: Form::Number, below: 0 },
    Entry { stage: StageWord::Widen, word: b"widen", parameter: Form::Number, below: 1 },
    Entry { stage: StageWord::Raise, word: b"raise", parameter: Form::Number, below: 1 },
    Entry { stage: StageWord::Choose, word: b"choose", parameter: Form::Test, below: 2 },
    Entry { stage: StageWord::Over, word: b"over", parameter: Form::Nothing, below: 2 },
    Entry { stage: StageWord::Shut, word: b"shut", parameter: Form::Nothing, below: 1 },
];

// The entry with a word.
pub fn entry_with(word: &[u8]) -> Option<&'static Entry>
    ensures the_entry_with_the_word_or_none { MatchOption result (stage_with word.now ≡ None) (λ e. (stage_with word.now ≡ Some e.now.stage) × IsTheEntry e.now) }
{
    first_with(&TABLE, word)
}

// The first entry with a word.
fn first_with<'a>(entries: &'a [Entry], word: &[u8]) -> Option<&'a Entry>
    requires entries_are_right { AllByRecursion IsTheEntry entries.now }
    ensures the_first_with_the_word_or_none { MatchOption result (stage_among (map (λ e. e.stage) entries.now) word.now ≡ None) (λ e. (stage_among (map (λ e. e.stage) entries.now) word.now ≡ Some e.now.stage) × IsTheEntry e.now) }
{
    for entry in entries {
        if entry.word == word {
            return Some(entry);
        }
    }
    None
}
