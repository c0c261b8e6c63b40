// A service of built-in piles.
use banks::count::Count;
use machine::{Instruction, Outcome};
use origins::{Layer, Origin};
use place::registers::RegisterSet;
use service::culprits::culprit;
use service::services::{Answered, Convention, Service};
use stage::ParameterFault;
use std::test::Fail;

const LIST: &[u8] = b"f u4 : u4\ng u4 u9 :\nh u4 u4 :\n";

fn convention() -> Result<Convention<Count>, ParameterFault> {
    Ok(Convention {
        arguments: Count::new(&[0])?,
        results: Count::new(&[1])?,
        kept: RegisterSet::EMPTY,
    })
}

// With an empty body, from a stack of 64 bytes.
fn call(service: Service<Count>, line: u32) -> Answered<Count> {
    let mut registers = [0; 32];
    registers[31] = 64;
    service.call(
        LIST,
        line,
        &[],
        &mut [Instruction::Halt; 16],
        &mut [Instruction::Halt; 16],
        &mut registers,
        &mut [0; 128],
        512,
    )
}

#[test]
fn calls_go_on_after_a_fault(rt: HostRuntime) -> Result<(), Fail> {
    let service = Service::open(convention()?, convention()?);
    let Answered { service, answer } = call(service, 2);
    let fault = answer
        .err()
        .ok_or_else(|| Fail::new("the line is at fault"))?;
    assert_eq!(rt;
        fault.origin(),
        Some(Origin {
            layer: Layer::Texts,
            number: 12,
            position: 2
        })
    );
    assert_eq!(rt; culprit(&fault, b"", LIST), b"g u4 u9 :".as_slice());
    let Answered { service, answer } = call(service, 3);
    let fault = answer
        .err()
        .ok_or_else(|| Fail::new("the second is refused"))?;
    assert_eq!(rt;
        fault.origin(),
        Some(Origin {
            layer: Layer::Placing,
            number: 24,
            position: 1
        })
    );
    assert_eq!(rt; culprit(&fault, b"", LIST), b"".as_slice());
    let Answered { service: _, answer } = call(service, 1);
    let ran = answer.ok().ok_or_else(|| Fail::new("the call is refused"))?;
    assert_eq!(rt; ran.outcome, Outcome::Ended);
    Ok(())
}
