// Texts in lines of words: the parts between separators, and words that stand for numbers and registers.
#![tactic(auto)]

pub mod lists;
pub mod parts;
pub mod words;
