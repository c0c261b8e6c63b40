// A service, by the text of its convention.
ghost use Rattle.std.specs.Prelude.{IfOk};
ghost use Rattle.service.specs.Services.{service_state};
ghost use Rattle.service.specs.Agreeing.{SidesAgree, CallsKeepSidesAgreeing, EveryCallDelivers};
ghost use Rattle.conventions.specs.Conventions.{IsReadForOneSide, IsReadForBothSides};

use described::pile::Pile;
use description::description::Description;
use pages::faults::DescriptionFault;
use service::faults::Fault;
use service::services::{Convention, Service};
use stage::Stage;
use std::alloc::Global;

// The piles of one side.
fn side(text: &[u8], heap: Global) -> Result<Convention<Pile>, DescriptionFault>
    ensures read_for_one_side { IsReadForOneSide text.now result }
{
    let description = Description::read(text, heap)?;
    Ok(Convention {
        arguments: description.arguments,
        results: description.results,
        kept: description.kept,
    })
}

// Both sides of the convention that a text describes, each with piles of its own.
pub fn read(text: &[u8], heap: Global) -> Result<Service<Pile>, Fault>
    ensures both_sides_as_described_or_the_first_fault { IsReadForBothSides ⟦<Pile as Stage>⟧ text.now result }
    ensures both_sides_agree { IfOk result (λ s. SidesAgree (service_state ⟦<Pile as Stage>⟧ s)) }
    ensures they_agree_after_every_call { CallsKeepSidesAgreeing }
    ensures no_argument_or_result_goes_astray_in_its_calls { IfOk result (λ s.
        EveryCallDelivers (service_state ⟦<Pile as Stage>⟧ s)) }
{
    let bench = side(text, heap)?;
    let core = side(text, heap)?;
    Ok(Service::open(bench, core))
}
