// One call from bench to core: where its values travel, both codes, and what came of it.
use crate::piles::wide;
use crate::shown::{show_bytes, show_code, show_places};
use adjust::Adjust;
use allocation::asked::Asked;
use allocation::frozen::Frozen;
use allocation::held::Held;
use banks::bits::Bits;
use call::calls::call;
use call::ran::Ran;
use call::sides::{Routine, Side};
use histories::events::{Event, UsedPile};
use histories::listeners::Silence;
use machine::{Instruction, Width};
use place::registers::RegisterSet;
use stage::{ParameterFault, Stage};
use values::kinds::Kind;

fn fetch(d: u8, i: i16) -> Instruction {
    Instruction::Load {
        d,
        b: 31,
        i,
        width: Width::Four,
        signed: false,
    }
}

// Adds the low words of four argument homes up into the result home.
fn sum() -> [Instruction; 8] {
    let add = Instruction::Add { d: 4, s: 4, t: 5 };
    let answer = Instruction::Store {
        s: 4,
        b: 31,
        i: 32,
        width: Width::Four,
    };
    [
        fetch(4, 0),
        fetch(5, 8),
        add,
        fetch(5, 16),
        add,
        fetch(5, 24),
        add,
        answer,
    ]
}

fn results() -> Result<Adjust<Bits>, ParameterFault> {
    Adjust::widen(4, Bits::new(&[0, 1])?)
}

// A pile, and what came to it before.
fn used<'p, P>(pile: P, past: &'p [Event]) -> UsedPile<'p, P> {
    UsedPile { pile, past }
}

// -3, 1,000, -600 and 40 in the homes from 128 on.
fn homes() -> [u8; 256] {
    let mut memory = [0; 256];
    memory[128] = 0xFD;
    memory[136..138].copy_from_slice(&1000u16.to_le_bytes());
    memory[144..152].copy_from_slice(&(-600i64).to_le_bytes());
    memory[152] = 40;
    memory
}

// How the run came out, what the body found in the homes of its arguments, and what came back to the caller's home.
fn show_run(
    rt: &HostRuntime,
    ran: Ran,
    arguments: &[Held],
    memory: &[u8; 256],
) -> anyhow::Result<()> {
    let (outcome, steps) = (ran.outcome, ran.steps);
    println!(rt; "{outcome} {steps}")?;
    // The callee's homes lie below the stack pointer at the start by the stack bytes of both sides.
    let taken = ran.block as usize + ran.frame as usize;
    for (i, h) in arguments.iter().enumerate() {
        let value = h.value;
        print!(rt; "arg {i} {value} ")?;
        if taken <= 128 && i < 16 {
            let home = 128 - taken + 8 * i;
            show_bytes(rt, &memory[home..home + 8])?;
        }
    }
    print!(rt; "result 0 s4 ")?;
    show_bytes(rt, &memory[160..164])
}

// A side's places: arguments, a colon, results.
fn show_side<P: Stage, Q: Stage>(
    rt: &HostRuntime,
    name: &str,
    side: &Side<Frozen<P>, Frozen<Q>>,
) -> anyhow::Result<()> {
    print!(rt; "{name}:")?;
    show_places(rt, side.arguments.held())?;
    print!(rt; " :")?;
    show_places(rt, side.results.held())?;
    println!(rt; "")?;
    Ok(())
}

// One call, with the stack pointer at 128: each side's places, both codes, and what came of it.
fn show_call<A: Stage + Drop, B: Stage + Drop, C: Stage + Drop, D: Stage + Drop>(
    rt: &HostRuntime,
    bench: Side<UsedPile<A>, UsedPile<B>>,
    core: Side<UsedPile<C>, UsedPile<D>>,
    routine: Routine,
) -> anyhow::Result<()> {
    let mut caller = [Instruction::Halt; 64];
    let mut callee = [Instruction::Ret; 64];
    let mut registers = [0; 32];
    registers[31] = 128;
    let mut memory = homes();
    let called = call(
        bench,
        core,
        &mut Silence,
        routine,
        &mut caller,
        &mut callee,
        &mut registers,
        &mut memory,
        512,
    );
    show_side(rt, "bench", &called.bench)?;
    show_side(rt, "core", &called.core)?;
    let ran = called.answer?;
    show_code(rt, "caller", &caller, ran.caller_length, ran.block)?;
    show_code(rt, "callee", &callee, ran.callee_length, ran.frame)?;
    show_run(rt, ran, called.core.arguments.held(), &memory)
}

// Bench and core have lived through unlike pasts; then one call goes across.
pub(crate) fn show_crossing(rt: &HostRuntime) -> anyhow::Result<()> {
    let float = Event::Place(Asked::aligned(Kind::Float, 8));
    let no_type = Event::Place(Asked::aligned(Kind::Unsigned, 3));
    let double = Event::Place(Asked::aligned(Kind::Unsigned, 8));
    let word = Event::Place(Asked::aligned(Kind::Address, 4));
    let again = Event::Reopen;
    let twice = [float, no_type, double, again, again, float, no_type, double];
    let once = [float, no_type, double, again, float, no_type, double];
    let word = [word];
    let bench = Side {
        arguments: used(wide()?, &twice),
        results: used(results()?, &[]),
    };
    let core = Side {
        arguments: used(wide()?, &word),
        results: used(results()?, &once),
    };
    let routine = Routine {
        arguments: &[
            Asked::aligned(Kind::Signed, 1),
            Asked::aligned(Kind::Unsigned, 2),
            Asked::aligned(Kind::Signed, 8),
            Asked::aligned(Kind::Unsigned, 4),
        ],
        results: &[Asked::aligned(Kind::Signed, 4)],
        kept: RegisterSet::EMPTY.with(4).with(5),
        body: &sum(),
    };
    show_call(rt, bench, core, routine)
}
