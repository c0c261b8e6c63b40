// Where the values of each signature travel.
use crate::asking::{Bench, count_lines};
use crate::faults::show_fault;
use allocation::held::Held;
use call_faults::CallFault;
use conventions::reading::read;
use described::pile::Pile;
use place::pieces::Place;
use service::faults::Fault;
use service::services::{Answered, Service};
use signatures::signature::Signature;
use values::sizes::Size;

// Each type with its place.
fn show_held(rt: &HostRuntime, held: &[Held]) -> anyhow::Result<()> {
    for h in held {
        print!(rt; " {}=", h.value)?;
        match h.place {
            Place::Single(low) => print!(rt; "{low}")?,
            Place::Double(low, high) => print!(rt; "{low},{high}")?,
        }
    }
    Ok(())
}

// The name, the arguments, the results, and the stack bytes of the caller.
fn show_places(rt: &HostRuntime, service: &Service<Pile>, name: &str) -> anyhow::Result<()> {
    let bench = service.bench();
    print!(rt; "{name}")?;
    show_held(rt, bench.arguments.held())?;
    print!(rt; " :")?;
    show_held(rt, bench.results.held())?;
    let block = Size::Eight.round_up(bench.arguments.reach());
    println!(rt; " / {block}")?;
    Ok(())
}

// A line for each signature. The call is not run, and a fault that comes behind placing prevents nothing here.
pub(crate) fn show_all_placed(
    rt: &HostRuntime,
    description: &[u8],
    list: &[u8],
) -> anyhow::Result<()> {
    let mut service = match read(description, rt.alloc()) {
        Ok(service) => service,
        Err(fault) => return show_fault(rt, &fault, description, list),
    };
    let mut bench = Bench::new(rt)?;
    for line in 1..=count_lines(list) {
        let Answered {
            service: after,
            answer,
        } = bench.call(service, list, line, 0);
        service = after;
        match (Signature::read(list, line), answer) {
            (Ok(_), Err(fault)) if matches!(fault, Fault::Call(CallFault::Placement(_))) => {
                show_fault(rt, &fault, description, list)?;
            }
            (Ok(signature), _) => show_places(rt, &service, signature.name.as_str())?,
            (Err(refusal), _) => show_fault(rt, &Fault::from(refusal), description, list)?,
        }
    }
    Ok(())
}
