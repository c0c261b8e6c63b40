// The lines of a page, read from their words.
ghost use Rattle.std.specs.Prelude.{◌≡◌, ◌≤◌, [], option_map, OnSome, IfErr};
ghost use Rattle.std.specs.Result.{result_ok};
ghost use Rattle.texts.specs.Lists.{listed, all_of_at_most};
ghost use Rattle.texts.specs.Parts.{parts, parts_left};
ghost use Rattle.pages.specs.Table.{IsTheEntry};
ghost use Rattle.texts.specs.Words.{number_of};
ghost use Rattle.pages.specs.declared.faults.Cause.TheVariants as causes;
ghost use Rattle.pages.specs.Lines.{of_the_form, first_of, number_alone, kinds_of, test_of, registers_of, parameter_of, below_of_the_words, stage_of, closing_of, line_of};

use crate::faults::Cause;
use crate::table::{Entry, Form, StageWord, entry_with};
use arrayvec::ArrayVec;
use conditions::Test;
use texts::lists::{NumberWord, RegisterWord, all};
use texts::parts::Parts;
use texts::words::number;
use values::kinds::Kind;

// The words that begin the lines behind the stages.
const ARGUMENTS: &[u8] = b"args";

const RESULTS: &[u8] = b"results";

const KEPT: &[u8] = b"keep";

// What stands between a stage word and the numbers of the stages below.
#[derive(Clone, Drop)]
pub enum Parameter {
    Registers(ArrayVec<u8, 16>),
    Number(u8),
    Kinds(ArrayVec<Kind, 4>),
    Nothing,
}

#[derive(Clone, Drop)]
pub struct StageLine {
    pub stage: StageWord,
    pub parameter: Parameter,
    pub below: ArrayVec<u8, 2>,
}

#[derive(Clone, Drop)]
pub enum Line {
    Stage(StageLine),
    Arguments(u8),
    Results(u8),
    Kept(ArrayVec<u8, 28>),
}

// The kinds whose letters a word has, one at least and none twice.
fn read_kinds(word: &[u8]) -> Result<ArrayVec<Kind, 4>, Cause>
    ensures the_kinds_or_a_fault_of_form { result ≡ of_the_form (option_map listed (kinds_of word.now)) }
{
    let mut list = ArrayVec::new();
    for letter in word {
        let kind = Kind::try_from(char::from(*letter))?;
        if list.is_full() {
            return Err(Cause::Form);
        }
        list.push(kind);
    }
    Test::of_kinds(list.as_slice())?;
    Ok(list)
}

// What a layer chooses by: a width, or kinds.
fn read_test(word: &[u8]) -> Result<Parameter, Cause>
    ensures a_number_or_else_kinds { result ≡ of_the_form (test_of word.now) }
{
    match number(word) {
        Some(width) => Ok(Parameter::Number(width)),
        None => Ok(Parameter::Kinds(read_kinds(word)?)),
    }
}

// One register at least.
fn read_registers(words: &mut Parts) -> Option<Parameter>
    ensures the_registers_or_none { result ≡ registers_of (parts_left words.old) }
    ensures none_is_left { OnSome result (parts_left words.new ≡ []) }
{
    let list = all::<RegisterWord, 16>(words)?;
    if list.is_empty() {
        return None;
    }
    Some(Parameter::Registers(list))
}

// The number that the next word is.
fn read_number(words: &mut Parts) -> Option<u8>
    ensures the_first_word_and_the_words_behind_it { option_map (λ n. (n, parts_left words.new)) result ≡ first_of number_of (parts_left words.old) }
{
    number(words.next_part()?)
}

// The parameter of a form, from the first of the words; the registers of a bank are all of them.
fn read_parameter(form: Form, words: &mut Parts) -> Result<Parameter, Cause>
    ensures the_parameter_and_the_words_behind_it { option_map (λ p. (p, parts_left words.new)) (result_ok result) ≡ parameter_of form (parts_left words.old) }
    ensures or_a_fault_of_form { IfErr result (λ c. c ≡ causes.Form) }
{
    match form {
        Form::Registers => read_registers(words).ok_or(Cause::Form),
        Form::Number => Ok(Parameter::Number(read_number(words).ok_or(Cause::Form)?)),
        Form::Test => read_test(words.next_part().ok_or(Cause::Form)?),
        Form::Nothing => Ok(Parameter::Nothing),
    }
}

// The numbers of the stages below, as many as are wanted.
fn read_below(count: usize, words: &mut Parts) -> Option<ArrayVec<u8, 2>>
    requires two_at_most { count ≤ 2 }
    ensures as_many_as_wanted_or_none { result ≡ option_map listed (below_of_the_words count (parts_left words.old)) }
{
    let list = all::<NumberWord, 2>(words)?;
    if list.len() != count {
        return None;
    }
    Some(list)
}

// What follows a stage word.
fn read_stage(entry: &Entry, words: &mut Parts) -> Result<StageLine, Cause>
    requires entry_is_right { IsTheEntry entry.now }
    ensures the_stage_or_a_fault_of_form { result ≡ of_the_form (stage_of entry.now.stage (parts_left words.old)) }
{
    let parameter = read_parameter(entry.parameter, words)?;
    let below = read_below(entry.below, words).ok_or(Cause::Form)?;
    Ok(StageLine {
        stage: entry.stage,
        parameter,
        below,
    })
}

// The number that stands alone behind a word.
fn read_root(words: &mut Parts) -> Option<u8>
    ensures the_number_alone_or_none { result ≡ number_alone (parts_left words.old) }
{
    let root = read_number(words)?;
    match words.next_part() {
        Some(_) => None,
        None => Some(root),
    }
}

// A line behind the stages.
fn read_closing(word: &[u8], words: &mut Parts) -> Option<Line>
    ensures the_line_or_none { result ≡ closing_of word.now (parts_left words.old) }
{
    if word == ARGUMENTS {
        Some(Line::Arguments(read_root(words)?))
    } else if word == RESULTS {
        Some(Line::Results(read_root(words)?))
    } else if word == KEPT {
        Some(Line::Kept(all::<RegisterWord, 28>(words)?))
    } else {
        None
    }
}

impl Line {
    // The line that the words make, if they have the form.
    pub fn read(line: &[u8]) -> Result<Line, Cause>
        ensures the_line_of_its_words_or_a_fault_of_form { result ≡ of_the_form (line_of (parts 32 line.now)) }
    {
        let mut words = Parts::words(line);
        let word = words.next_part().ok_or(Cause::Form)?;
        match entry_with(word) {
            Some(entry) => Ok(Line::Stage(read_stage(entry, &mut words)?)),
            None => read_closing(word, &mut words).ok_or(Cause::Form),
        }
    }
}
