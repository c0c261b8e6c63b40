// One call across, on the machine.
use crate::asking::{Bench, STACK};
use crate::faults::show_fault;
use crate::shown::show_bytes;
use anyhow::anyhow;
use call::ran::Ran;
use conventions::reading::read;
use service::faults::Fault;
use service::services::Answered;
use signatures::signature::Signature;
use values::value_type::ValueType;

// The home of a number, counted from an address.
fn home(memory: &mut [u8], address: usize, number: usize) -> Option<&mut [u8]> {
    let start = number.checked_mul(8)?.checked_add(address)?;
    memory.get_mut(start..start.checked_add(8)?)
}

fn digit(c: u8) -> anyhow::Result<u8> {
    let value = char::from(c)
        .to_digit(16)
        .ok_or_else(|| anyhow!("no hexadecimal digit"))?;
    Ok((value % 16) as u8)
}

// The bytes of a value, as two digits each write them, lowest first.
fn fill(home: &mut [u8], value: ValueType, word: &str) -> anyhow::Result<()> {
    let digits = word.as_bytes();
    if digits.len() != 2 * usize::from(value.width.bytes()) {
        return Err(anyhow!("as many bytes as {value} is wide are wanted"));
    }
    for (pair, byte) in digits.chunks_exact(2).zip(home) {
        *byte = (digit(pair[0])? << 4) | digit(pair[1])?;
    }
    Ok(())
}

// The homes of all arguments, where words say what is in them.
fn fill_all(memory: &mut [u8], arguments: &[ValueType], words: &[String]) -> anyhow::Result<()> {
    if !words.is_empty() && words.len() != arguments.len() {
        return Err(anyhow!("bytes for each argument are wanted, or for none"));
    }
    for (i, (value, word)) in arguments.iter().zip(words).enumerate() {
        if let Some(home) = home(memory, STACK, i) {
            fill(home, *value, word.as_str())?;
        }
    }
    Ok(())
}

// What the body found in the homes of its arguments, and what came back to the caller's homes of the results.
fn show_values(
    rt: &HostRuntime,
    memory: &mut [u8],
    ran: Ran,
    signature: &Signature,
) -> anyhow::Result<()> {
    let taken = (ran.block as usize).saturating_add(ran.frame as usize);
    for (i, value) in signature.arguments.iter().enumerate() {
        print!(rt; "arg {i} {value} ")?;
        if let Some(found) = home(memory, STACK.saturating_sub(taken), i) {
            show_bytes(rt, found)?;
        }
    }
    let arguments = signature.arguments.len();
    for (j, value) in signature.results.iter().enumerate() {
        print!(rt; "result {j} {value} ")?;
        if let Some(back) = home(memory, STACK, arguments.saturating_add(j)) {
            let width = usize::from(value.width.bytes());
            show_bytes(rt, back.get(..width).unwrap_or(&[]))?;
        }
    }
    Ok(())
}

// One call by a line of the list, with these bytes in the homes of its arguments.
pub(crate) fn show_line_called(
    rt: &HostRuntime,
    description: &[u8],
    list: &[u8],
    line: u32,
    words: &[String],
) -> anyhow::Result<()> {
    let service = match read(description, rt.alloc()) {
        Ok(service) => service,
        Err(fault) => return show_fault(rt, &fault, description, list),
    };
    let signature = match Signature::read(list, line) {
        Ok(signature) => signature,
        Err(refusal) => return show_fault(rt, &Fault::from(refusal), description, list),
    };
    let mut bench = Bench::new(rt)?;
    fill_all(
        bench.memory.as_mut_slice(),
        signature.arguments.as_slice(),
        words,
    )?;
    let Answered { service: _, answer } = bench.call(service, list, line, 512);
    match answer {
        Ok(ran) => {
            let (outcome, steps) = (ran.outcome, ran.steps);
            println!(rt; "{outcome} {steps}")?;
            show_values(rt, bench.memory.as_mut_slice(), ran, &signature)
        }
        Err(fault) => show_fault(rt, &fault, description, list),
    }
}
