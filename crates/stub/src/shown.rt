// What is printed of places, records and homes.
use allocation::held::Held;
use machine::Instruction;

pub(crate) fn show_places(rt: &HostRuntime, held: &[Held]) -> anyhow::Result<()> {
    for h in held {
        print!(rt; " {};", h.place)?;
    }
    Ok(())
}

// A side's code: its length and its stack bytes, and its records, the first of a list.
pub(crate) fn show_code(
    rt: &HostRuntime,
    side: &str,
    list: &[Instruction],
    length: usize,
    bytes: u32,
) -> anyhow::Result<()> {
    println!(rt; "{side} {length} {bytes}")?;
    for record in list.iter().take(length) {
        println!(rt; "{record}")?;
    }
    Ok(())
}

// Bytes in hexadecimal, lowest first.
pub(crate) fn show_bytes(rt: &HostRuntime, bytes: &[u8]) -> anyhow::Result<()> {
    for byte in bytes {
        print!(rt; "{byte:02x}")?;
    }
    println!(rt; "")?;
    Ok(())
}
