// The types that a convention always places.
use crate::faults::show_fault;
use conventions::reading::read;
use described::pile::Pile;
use service::services::Service;
use values::value_type::ValueType;

// Each type that the bench always places.
fn show_types(rt: &HostRuntime, service: &Service<Pile>, results: bool) -> anyhow::Result<()> {
    for value in ValueType::ALL {
        let always = service.always_places(value);
        if (results && always.bench_results) || (!results && always.bench_arguments) {
            print!(rt; " {value}")?;
        }
    }
    Ok(())
}

// A line for arguments, and one for results.
pub(crate) fn show_report(rt: &HostRuntime, description: &[u8]) -> anyhow::Result<()> {
    let service = match read(description, rt.alloc()) {
        Ok(service) => service,
        Err(fault) => return show_fault(rt, &fault, description, &[]),
    };
    print!(rt; "args")?;
    show_types(rt, &service, false)?;
    println!(rt; "")?;
    print!(rt; "results")?;
    show_types(rt, &service, true)?;
    println!(rt; "")?;
    Ok(())
}
