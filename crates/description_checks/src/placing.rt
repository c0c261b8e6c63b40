// What a pile answers, beside what it should.
use stage::Stage;
use std::alloc::{AllocError, Global};
use std::process::Abort;
use std::test::Fail;
use values::value_type::ValueType;

// The answer as text: a place, or the line of the stage that refused.
fn answer<P: Stage>(heap: Global, pile: &mut P, value: ValueType) -> Result<String, AllocError> {
    match pile.place(value.request()) {
        Ok(place) => format!(in heap; "{place}"),
        Err(refusal) => format!(in heap; "line {}", refusal.line),
    }
}

// Each word's type goes, at its own alignment, to the place beside it.
pub(crate) fn places<P: Stage>(
    rt: &impl Abort,
    heap: Global,
    pile: &mut P,
    table: &[(&str, &str)],
) -> Result<(), Fail> {
    for (word, place) in table {
        let value = ValueType::try_from(word.as_bytes())?;
        let given = answer(heap, pile, value)?;
        assert_eq!(rt; given.as_str(), *place, "{}", *word);
    }
    Ok(())
}
