// Lists of words that stand for numbers.
ghost use Rattle.std.specs.Prelude.{◌≡◌, [], option_map, OnSome};
ghost use Rattle.texts.specs.Parts.{parts_left};
ghost use Rattle.texts.specs.Words.{number_of, register_of};
ghost use Rattle.texts.specs.Lists.{listed, all_of_at_most, left_behind};

use crate::parts::Parts;
use crate::words::{number, register};
use arrayvec::ArrayVec;

// A kind of word.
pub trait Word {
    ghost use Rattle.std.specs.Prelude.{ℕ, List, Option};

    // The number that each word stands for, if it is of this kind.
    ghost stands_for: { List ℕ → Option ℕ };

    fn read(word: &[u8]) -> Option<u8>
        ensures what_the_word_stands_for { result ≡ stands_for word.now };
}

pub struct NumberWord;

impl Word for NumberWord {
    ghost stands_for = { number_of };

    fn read(word: &[u8]) -> Option<u8> {
        number(word)
    }
}

pub struct RegisterWord;

impl Word for RegisterWord {
    ghost stands_for = { register_of };

    fn read(word: &[u8]) -> Option<u8> {
        register(word)
    }
}

// What all words that are left stand for; none where one is of another kind, or where there are more than N. It reads up to
// the word that decides.
pub fn all<W: Word, const N: usize>(words: &mut Parts) -> Option<ArrayVec<u8, N>>
    ensures all_of_them_or_none { result ≡ option_map listed (all_of_at_most N W.stands_for (parts_left words.old)) }
    ensures none_is_left { OnSome result (parts_left words.new ≡ []) }
    ensures words_behind_the_one_that_decides_are_left { parts_left words.new ≡ left_behind N W.stands_for (parts_left words.old) }
{
    let mut list = ArrayVec::new();
    while let Some(word) = words.next_part() {
        if list.is_full() {
            return None;
        }
        list.push(W::read(word)?);
    }
    Some(list)
}
