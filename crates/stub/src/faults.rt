// Faults, with the line that each blames.
use service::culprits::culprit;
use service::faults::Fault;

// A text that may not be UTF-8.
pub(crate) fn show_text(rt: &HostRuntime, text: &[u8]) -> anyhow::Result<()> {
    rt.stdout().write_all(text)?;
    Ok(())
}

// On a line: the fault, and what it blames, if anything.
pub(crate) fn show_fault(
    rt: &HostRuntime,
    fault: &Fault,
    description: &[u8],
    list: &[u8],
) -> anyhow::Result<()> {
    print!(rt; "{fault}")?;
    let line = culprit(fault, description, list);
    if !line.is_empty() {
        print!(rt; ": ")?;
        show_text(rt, line)?;
    }
    println!(rt; "")?;
    Ok(())
}
