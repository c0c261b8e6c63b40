// A line of a list of signatures, read by its number.
ghost use Rattle.std.specs.Prelude.{◌≡◌, ◌<◌, ◌≤◌, true, false, cond, length, map, None, Some, IfOk, MatchOption, MatchResult};
ghost use Rattle.texts.specs.Parts.{parts_left};
ghost use Rattle.values.specs.Types.{word_of};
ghost use Rattle.signatures.specs.Signatures.{is_name, signature_bytes, IsProper};
ghost use Rattle.signatures.specs.declared.fault.Cause.TheVariants.{Count};
ghost use Rattle.signatures.specs.Faults.{line_at, before_colon, behind_colon, are_divided, are_types, is_type_word, line_fault, number_of_fault, fault_of, fault_at, FaultlessLinesAreSignatures, LinesTellSignaturesApart};

use crate::fault::{Cause, SignatureFault};
use crate::signature::Signature;
use arrayvec::{ArrayString, ArrayVec};
use std::str;
use texts::parts::Parts;
use values::value_type::ValueType;

// The most bytes of a line, without its feed.
const LONGEST: usize = 120;

// The most letters of a name.
const LONGEST_NAME: usize = 8;

// What stands between the types of the arguments and those of the results.
const COLON: &[u8] = b":";

// The closed line with a number.
fn line_at(list: &[u8], line: u32) -> Option<&[u8]>
    ensures the_line_or_none { MatchOption result (line_at list.now line ≡ None) (λ l. line_at list.now line ≡ Some l.now) }
{
    let mut lines = Parts::lines(list);
    let found = lines.nth_part(line.checked_sub(1)?)?;
    lines.next_part()?;
    Some(found)
}

// Whether a word is 1 to 8 letters a to z.
fn is_name(word: &[u8]) -> bool
    ensures whether_it_is_one { result ≡ is_name word.now }
{
    !word.is_empty() && word.len() <= LONGEST_NAME && word.iter().all(u8::is_ascii_lowercase)
}

fn read_name(word: &[u8]) -> Option<ArrayString<8>>
    ensures the_word_if_it_is_a_name { MatchOption result (is_name word.now ≡ false) (λ n. (is_name word.now ≡ true) × (n.bytes ≡ word.now)) }
{
    if !is_name(word) {
        return None;
    }
    let name = str::from_utf8(word).unwrap();
    Some(ArrayString::from(name).unwrap())
}

// Whether a type has the word.
fn is_type(word: &[u8]) -> bool
    ensures whether_a_type_has_the_word { result ≡ is_type_word word.now }
{
    ValueType::try_from(word).is_ok()
}

// Whether there is one colon and no empty word behind a name, and then whether the other words are types.
fn check_words(words: &mut Parts) -> Result<(), Cause>
    ensures refused_by_form_then_by_type { number_of_fault result ≡ cond (are_divided (parts_left words.old)) (cond (are_types (parts_left words.old)) None (Some 12)) (Some 11) }
{
    let mut divided = false;
    let mut known = true;
    while let Some(word) = words.next_part() {
        let colon = word == COLON;
        if word.is_empty() || (colon && divided) {
            return Err(Cause::Line);
        }
        divided = divided || colon;
        known = known && (colon || is_type(word));
    }
    if !divided {
        return Err(Cause::Line);
    }
    if !known {
        return Err(Cause::NotAType);
    }
    Ok(())
}

// The types up to a colon or the end, N at most.
fn read_types<const N: usize>(words: &mut Parts) -> Result<ArrayVec<ValueType, N>, Cause>
    requires words_are_types_and_colons { are_types (parts_left words.old) ≡ true }
    ensures the_types_before_the_colon_or_too_many { MatchResult result (λ v. (length v.items ≤ N) × (map word_of v.items ≡ before_colon (parts_left words.old)) × (parts_left words.new ≡ behind_colon (parts_left words.old))) (λ c. (N < length (before_colon (parts_left words.old))) × (c ≡ Count)) }
{
    let mut list = ArrayVec::new();
    while let Some(word) = words.next_part() {
        if word == COLON {
            return Ok(list);
        }
        list.try_push(ValueType::try_from(word)?)?;
    }
    Ok(list)
}

// The signature that a line writes, or its fault.
fn read_line(line: &[u8]) -> Result<Signature, Cause>
    ensures refused_with_the_lowest_number { number_of_fault result ≡ line_fault line.now }
    ensures written_by_what_was_read { IfOk result (λ s. IsProper s × (line.now ≡ signature_bytes s)) }
{
    if line.len() > LONGEST {
        return Err(Cause::Line);
    }
    // Gone through twice: all words are checked before the types are read.
    let mut words = Parts::words(line);
    let mut types = Parts::words(line);
    let name = words.next_part().and_then(read_name).ok_or(Cause::Line)?;
    types.next_part();
    check_words(&mut words)?;
    let arguments = read_types(&mut types)?;
    let results = read_types(&mut types)?;
    Ok(Signature {
        name,
        arguments,
        results,
    })
}

impl Signature {
    // The signature on the line with a number, from 1.
    pub fn read(list: &[u8], line: u32) -> Result<Signature, SignatureFault>
        ensures refused_exactly_with_the_fault_of_the_line { fault_of result ≡ fault_at list.now line }
        ensures read_is_what_writes_the_line { IfOk result (λ s. IsProper s × (line_at list.now line ≡ Some (signature_bytes s))) }
        ensures faultless_lines_are_those_of_proper_signatures { FaultlessLinesAreSignatures }
        ensures a_line_is_written_by_one_proper_signature { LinesTellSignaturesApart }
    {
        let read = match line_at(list, line) {
            Some(bytes) => read_line(bytes),
            None => Err(Cause::Line),
        };
        match read {
            Ok(signature) => Ok(signature),
            Err(cause) => Err((cause, line))?,
        }
    }
}
