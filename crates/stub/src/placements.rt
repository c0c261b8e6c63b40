// Places signatures by built-in piles and prints where each value goes, on two sides with unlike pasts too; then runs a
// small call on the machine.
use crate::piles::{convention, floats_apart, wide};
use allocation::asked::Asked;
use allocation::opened::Open;
use banks::bits::Bits;
use banks::count::Count;
use blocks::up::Up;
use histories::events::{Event, UsedPile};
use histories::listeners::Silence;
use histories::plays::play;
use machine::{Instruction, Machine, Program, Width};
use place::pieces::Place;
use sides::over::Over;
use stage::Stage;
use values::kinds::Kind;
use values::sizes::Size;
use values::value_type::ValueType;

// What a value is answered: its place, or that it was refused.
fn show_answer<E: Drop>(rt: &HostRuntime, answer: Result<Place, E>) -> anyhow::Result<()> {
    match answer {
        Ok(place) => print!(rt; "{place}; ")?,
        Err(_) => print!(rt; "refused; ")?,
    }
    Ok(())
}

// A line for a signature: its types, their places, and the block bytes rounded up to 8.
fn show<S: Stage + Drop>(rt: &HostRuntime, mut pile: S, signature: &str) -> anyhow::Result<()> {
    print!(rt; "{signature}: ")?;
    for word in signature.split(' ') {
        let value = ValueType::try_from(word.as_bytes())?;
        show_answer(rt, pile.place(value.request()))?;
    }
    let block = Size::Eight.round_up(pile.reach());
    println!(rt; "block {block}")?;
    Ok(())
}

// A line for a side after its past: its places for u4 u8 u4.
fn show_side<P: Stage + Drop>(
    rt: &HostRuntime,
    side: &str,
    mut allocation: Open<P>,
) -> anyhow::Result<()> {
    print!(rt; "{side}: ")?;
    for width in [4, 8, 4] {
        show_answer(rt, allocation.place(Asked::aligned(Kind::Unsigned, width)))?;
    }
    let held = allocation.held().len();
    println!(rt; "held {held}")?;
    Ok(())
}

// Two sides of one convention that have lived through unlike pasts place the same signature alike.
fn show_sides(rt: &HostRuntime) -> anyhow::Result<()> {
    // The bench's shut had closed, and something that is no type was refused.
    let bench = UsedPile {
        pile: convention()?,
        past: &[
            Event::Place(Asked::aligned(Kind::Unsigned, 1)),
            Event::Place(Asked::aligned(Kind::Float, 2)),
            Event::Place(Asked::aligned(Kind::Unsigned, 4)),
            Event::Reopen,
        ],
    };
    let core = UsedPile {
        pile: convention()?,
        past: &[
            Event::Reopen,
            Event::Place(Asked::aligned(Kind::Signed, 8)),
            Event::Reopen,
        ],
    };
    let bench = play(bench, &mut Silence);
    let core = play(core, &mut Silence);
    show_side(rt, "bench after a round that closed its shut", bench)?;
    show_side(rt, "core after two other rounds", core)
}

// Each value that is not 0, with its number behind a label.
fn show_filled<T: Copy + Into<u32>>(
    rt: &HostRuntime,
    label: &str,
    values: &[T],
) -> anyhow::Result<()> {
    for (n, value) in values.iter().enumerate() {
        let value: u32 = (*value).into();
        if value != 0 {
            print!(rt; "; {label}{n} {value}")?;
        }
    }
    Ok(())
}

// A call on a machine that is all zero: -5 and 47 are added, and the caller stores the sum.
fn show_small_call(rt: &HostRuntime) -> anyhow::Result<()> {
    let caller = [
        Instruction::Set { d: 31, n: 64 },
        Instruction::Set {
            d: 0,
            n: 0xFFFF_FFFB,
        },
        Instruction::Call,
        Instruction::Store {
            s: 0,
            b: 31,
            i: -8,
            width: Width::Four,
        },
        Instruction::Halt,
    ];
    let callee = [Instruction::Addi { d: 0, s: 0, i: 47 }, Instruction::Ret];
    let mut memory = [0; 128];
    let mut machine = Machine::new([0; 32]);
    let program = Program {
        caller: &caller,
        callee: &callee,
    };
    let (outcome, steps) = machine.run(&mut memory, program, 100)?;
    print!(rt; "call: {outcome} after {steps} steps")?;
    show_filled(rt, "r", &machine.registers)?;
    show_filled(rt, "byte ", &memory)?;
    println!(rt; "")?;
    Ok(())
}

// Signatures, then two sides, then the small call.
pub(crate) fn show_placements(rt: &HostRuntime) -> anyhow::Result<()> {
    show(rt, wide()?, "u1 s8 u2")?;
    show(rt, wide()?, "f8 f8 u1 s8")?;
    show(rt, convention()?, "u4 u8 u4")?;
    show(rt, Over::new(Bits::new(&[0, 1])?, Up::new(8)?), "u4 u8 u4")?;
    show(rt, Count::new(&[0, 1])?, "u8 u4")?;
    show(rt, floats_apart()?, "f4 u1 u2 f4 f4 a4")?;
    show_sides(rt)?;
    show_small_call(rt)
}
