// A service: both sides of a convention, kept from call to call.
ghost use Rattle.std.specs.Prelude.{◌≡◌, Ok, Err, Result};
ghost use Rattle.stage.specs.declared.Stage.{Ghosts};
ghost use Rattle.allocation.specs.States.{state, opened, always_placed};
ghost use Rattle.call.specs.Placing.{both_sides};
ghost use Rattle.call.specs.Calls.{world_of};
ghost use Rattle.service.specs.Faults.{answer_of};
ghost use Rattle.service.specs.Services.{service_state, opened_service, start_of, finish_of, requests_of, CameOutByTheLine, SignatureCalled, EqualServicesAnswerAlike, AlwaysPlacedOn};

use crate::faults::Fault;
use crate::requests::requests;
use allocation::frozen::Frozen;
use allocation::opened::Open;
use call::calls::call_again;
use call::ran::Ran;
use call::sides::{Routine, Side};
use call_faults::CallFault;
use machine::Instruction;
use place::registers::RegisterSet;
use signatures::signature::Signature;
use stage::Stage;
use values::value_type::ValueType;

// What a description says: the piles of arguments and of results, and the registers that a routine keeps.
#[derive(Drop)]
pub struct Convention<P> {
    pub arguments: P,
    pub results: P,
    pub kept: RegisterSet,
}

// Both sides, each with piles of its own, in four allocations that are frozen between calls.
#[derive(Drop)]
pub struct Service<P> {
    bench: Side<Frozen<P>, Frozen<P>>,
    core: Side<Frozen<P>, Frozen<P>>,
    kept: RegisterSet,
}

// What a call leaves: the service, and what happened.
#[derive(Drop)]
pub struct Answered<P> {
    pub service: Service<P>,
    pub answer: Result<Ran, Fault>,
}

// Whether a type is always placed, for each purpose of both sides.
#[derive(Clone, Copy, PartialEq, Eq, Debug)]
pub struct AlwaysPlaced {
    pub bench_arguments: bool,
    pub bench_results: bool,
    pub core_arguments: bool,
    pub core_results: bool,
}

// The fault of a call, where it answers one, as one of the service.
fn turned(answer: Result<Ran, CallFault>) -> Result<Ran, Fault>
    ensures fault_is_that_of_the_call { result ≡ answer_of answer }
{
    Ok(answer?)
}

// Opened, and frozen at once.
fn open_side<P: Stage>(arguments: P, results: P) -> Side<Frozen<P>, Frozen<P>>
    ensures arguments_newly_opened { state P.Stage result.arguments ≡ opened (P.Stage.profile arguments) }
    ensures results_newly_opened { state P.Stage result.results ≡ opened (P.Stage.profile results) }
{
    Side {
        arguments: Open::new(arguments).freeze(),
        results: Open::new(results).freeze(),
    }
}

impl<P: Stage> Service<P> {
    // A routine keeps what the bench's description says.
    pub fn open(bench: Convention<P>, core: Convention<P>) -> Service<P>
        ensures newly_opened_with_the_kept_set_of_the_bench { service_state P.Stage result ≡ opened_service P.Stage bench core }
    {
        Service {
            bench: open_side(bench.arguments, bench.results),
            core: open_side(core.arguments, core.results),
            kept: bench.kept,
        }
    }

    pub fn bench(&self) -> &Side<Frozen<P>, Frozen<P>>
        ensures allocations_of_the_bench { result.now ≡ self.now.bench }
    {
        &self.bench
    }

    pub fn core(&self) -> &Side<Frozen<P>, Frozen<P>>
        ensures allocations_of_the_core { result.now ≡ self.now.core }
    {
        &self.core
    }

    // The registers that a routine keeps.
    pub fn kept(&self) -> RegisterSet
        ensures its_kept_set { result ≡ self.now.kept }
    {
        self.kept
    }

    // Whether this type, at its own alignment, is placed until a block is nearly full or sixteen are held.
    pub fn always_places(&self, value: ValueType) -> AlwaysPlaced
        ensures by_each_pile { AlwaysPlacedOn (service_state P.Stage self.now) value result }
    {
        AlwaysPlaced {
            bench_arguments: self.bench.arguments.always_places(value),
            bench_results: self.bench.results.always_places(value),
            core_arguments: self.core.arguments.always_places(value),
            core_results: self.core.results.always_places(value),
        }
    }

    // Calls a routine of this signature.
    fn call_signature(
        self,
        signature: &Signature,
        body: &[Instruction],
        caller: &mut [Instruction],
        callee: &mut [Instruction],
        registers: &mut [u32; 32],
        memory: &mut [u8],
        budget: usize,
    ) -> Answered<P>
        ensures nothing_goes_astray { SignatureCalled (service_state P.Stage self) body.now budget
            (world_of caller.old callee.old registers.old memory.old)
            (requests_of signature.now.arguments.items) (requests_of signature.now.results.items)
            (finish_of P.Stage result (world_of caller.new callee.new registers.new memory.new)) }
    {
        let arguments = requests(&signature.arguments);
        let results = requests(&signature.results);
        let Service { bench, core, kept } = self;
        let routine = Routine {
            arguments: arguments.as_slice(),
            results: results.as_slice(),
            kept,
            body,
        };
        let called = call_again(
            bench, core, routine, caller, callee, registers, memory, budget,
        );
        Answered {
            service: Service {
                bench: called.bench,
                core: called.core,
                kept,
            },
            answer: turned(called.answer),
        }
    }

    // Calls a routine with the signature on a line of a list, numbered from 1. A line at fault changes nothing. What is
    // lent is lent one by one as by `call_again`.
    pub fn call(
        self,
        list: &[u8],
        line: u32,
        body: &[Instruction],
        caller: &mut [Instruction],
        callee: &mut [Instruction],
        registers: &mut [u32; 32],
        memory: &mut [u8],
        budget: usize,
    ) -> Answered<P>
        ensures comes_out_by_the_line { CameOutByTheLine
            (start_of P.Stage self list.now line body.now budget
            (world_of caller.old callee.old registers.old memory.old))
            (finish_of P.Stage result (world_of caller.new callee.new registers.new memory.new)) }
        ensures equal_services_answer_alike { EqualServicesAnswerAlike }
    {
        match Signature::read(list, line) {
            Ok(signature) => self.call_signature(
                &signature, body, caller, callee, registers, memory, budget,
            ),
            Err(fault) => Answered {
                service: self,
                answer: Err(Fault::from(fault)),
            },
        }
    }
}
