// The code of both sides.
use crate::asking::{Bench, count_lines};
use crate::faults::show_fault;
use crate::shown::show_code;
use conventions::reading::read;
use described::pile::Pile;
use service::services::{Answered, Service};

// Both codes for the signature on a line, or its fault. The call is not run.
fn show_coded(
    rt: &HostRuntime,
    bench: &mut Bench,
    service: Service<Pile>,
    description: &[u8],
    list: &[u8],
    line: u32,
) -> anyhow::Result<Service<Pile>> {
    let Answered { service, answer } = bench.call(service, list, line, 0);
    match answer {
        Ok(ran) => {
            show_code(rt, "caller", &bench.caller, ran.caller_length, ran.block)?;
            show_code(rt, "callee", &bench.callee, ran.callee_length, ran.frame)?;
        }
        Err(fault) => show_fault(rt, &fault, description, list)?,
    }
    Ok(service)
}

// Those of the lines from one to another.
fn show_lines_coded(
    rt: &HostRuntime,
    description: &[u8],
    list: &[u8],
    first: u32,
    last: u32,
) -> anyhow::Result<()> {
    let mut service = match read(description, rt.alloc()) {
        Ok(service) => service,
        Err(fault) => return show_fault(rt, &fault, description, list),
    };
    let mut bench = Bench::new(rt)?;
    for line in first..=last {
        service = show_coded(rt, &mut bench, service, description, list, line)?;
    }
    Ok(())
}

pub(crate) fn show_all_coded(
    rt: &HostRuntime,
    description: &[u8],
    list: &[u8],
) -> anyhow::Result<()> {
    show_lines_coded(rt, description, list, 1, count_lines(list))
}

pub(crate) fn show_line_coded(
    rt: &HostRuntime,
    description: &[u8],
    list: &[u8],
    line: u32,
) -> anyhow::Result<()> {
    show_lines_coded(rt, description, list, line, line)
}
