// A register machine: 32 registers of 32 bits, a memory of bytes that is lent to it, and two lists of instructions.
#![tactic(auto)]

ghost use Rattle.std.specs.Prelude.{◌≡◌, ◌+◌, ◌-◌, ◌^◌, ◌<◌, ◌≤◌, true, length, is_some, IfOk, if◌then◌else◌, Some, None, OnErr, OnOk, OnSome, nat_lt};
ghost use Rattle.machine.specs.Machine.{ok, reg, address, bytes_of, loaded, stored, sign_of, contents_of, state_of, effect, next, or_same, instruction_at, runs, outcome_of};
ghost use Rattle.machine.specs.Faults.{fault_in, memory_fault};
ghost use Rattle.machine.specs.Fetch.{carried, LeadsTo, index_of};
ghost use Rattle.machine.specs.Laws.{OnlyWritten, LargerBudgetGoesOn, StoppedStays, SpentUsesUpBudget, StuckExactlyWhere, StraightLineComposes, CallOfStraightLinesEnds};

mod faults;
mod text;

// How many bytes LOAD and STORE move.
#[derive(Clone, Copy, PartialEq, Eq, Debug)]
pub enum Width {
    One,
    Two,
    Four,
}

// A register is a number below 32; an instruction that names another one cannot be done.
#[derive(Clone, Copy, PartialEq, Eq, Debug)]
pub enum Instruction {
    Set {
        d: u8,
        n: u32,
    },
    Mov {
        d: u8,
        s: u8,
    },
    Add {
        d: u8,
        s: u8,
        t: u8,
    },
    Addi {
        d: u8,
        s: u8,
        i: i16,
    },
    Sign {
        d: u8,
        s: u8,
    },
    Load {
        d: u8,
        b: u8,
        i: i16,
        width: Width,
        // A flag, since by the rules a load is marked so or not.
        signed: bool,
    },
    Store {
        s: u8,
        b: u8,
        i: i16,
        width: Width,
    },
    Call,
    Ret,
    Halt,
}

// Which of the two lists the machine goes through.
#[derive(Clone, Copy, PartialEq, Eq, Debug)]
pub enum Side {
    Caller,
    Callee,
}

// A running machine has the index of its next instruction. No Option, which would not say what its other case is.
#[derive(Clone, Copy, PartialEq, Eq, Debug)]
pub enum Mode {
    Running(Side, usize),
    Ended,
}

// How a run came out. Stuck: the next instruction cannot be done. Spent: it can, and the budget is used up.
#[derive(Clone, Copy, PartialEq, Eq, Debug)]
pub enum Outcome {
    Ended,
    Stuck,
    Spent,
}

// Why a run is refused, with nothing changed.
#[derive(Clone, Copy, PartialEq, Eq, Debug)]
pub enum RunFault {
    // More than 65,536 bytes.
    MemoryTooLarge,
}

// The two lists that a machine goes through.
#[derive(Clone, Copy, PartialEq, Eq, Debug)]
pub struct Program<'c, 'd> {
    pub caller: &'c [Instruction],
    pub callee: &'d [Instruction],
}

#[derive(Clone, Copy, PartialEq, Eq, Debug)]
pub struct Machine {
    pub registers: [u32; 32],
    pub mode: Mode,
}

// The most bytes that a run takes as its memory.
pub const MEMORY_LIMIT: usize = 65_536;

impl Width {
    // A method, since a conversion to a number would not say that it counts bytes.
    pub fn bytes(self) -> usize
        ensures bytes_of_the_width { result ≡ bytes_of self }
    {
        match self {
            Width::One => 1,
            Width::Two => 2,
            Width::Four => 4,
        }
    }
}

// The memory index of `base + i`, where `count` bytes from it lie within `size`.
fn place(base: u32, i: i16, count: usize, size: usize) -> Option<usize>
    requires { count ≤ 4 }
    ensures index_of_the_sum_where_all_bytes_lie_inside { result ≡ address base i count size }
{
    (base as usize)
        .checked_add_signed(isize::from(i))
        .filter(|at| at + count <= size)
}

fn sign(v: u32) -> u32
    ensures all_ones_or_zero_by_the_top_bit { result ≡ sign_of v }
{
    if v < 0x8000_0000 { 0 } else { 0xFFFF_FFFF }
}

fn load(memory: &[u8], at: usize, width: Width, signed: bool) -> u32
    requires { at + bytes_of width ≤ length memory.now }
    ensures value_of_the_bytes_as_marked { result ≡ loaded memory.now at width signed }
{
    match (width, signed) {
        (Width::One, false) => u32::from(memory[at]),
        (Width::One, true) => i32::from(memory[at].cast_signed()).cast_unsigned(),
        (Width::Two, false) => u32::from(u16::from_le_bytes([memory[at], memory[at + 1]])),
        (Width::Two, true) => {
            i32::from(i16::from_le_bytes([memory[at], memory[at + 1]])).cast_unsigned()
        }
        (Width::Four, _) => {
            u32::from_le_bytes([memory[at], memory[at + 1], memory[at + 2], memory[at + 3]])
        }
    }
}

fn store(memory: &mut [u8], at: usize, width: Width, v: u32)
    requires { at + bytes_of width ≤ length memory.old }
    ensures lowest_bytes_are_stored_and_no_other { memory.new ≡ stored memory.old at (bytes_of width) v }
{
    let bytes = v.to_le_bytes();
    match width {
        Width::One => memory[at..at + 1].copy_from_slice(&bytes[..1]),
        Width::Two => memory[at..at + 2].copy_from_slice(&bytes[..2]),
        Width::Four => memory[at..at + 4].copy_from_slice(&bytes),
    }
}

impl Machine {
    // A machine at the start of the caller list.
    pub fn new(registers: [u32; 32]) -> Machine
        ensures registers_are_those_given { result.registers ≡ registers }
        ensures starts_at_caller_index_0 { result.mode ≡ Mode.Running Side.Caller 0 }
    {
        Machine {
            registers,
            mode: Mode::Running(Side::Caller, 0),
        }
    }

    // The memory index of LOAD and STORE at register `b`'s value plus `i`. Always inlined, like `can_do` and `fetch`: as calls
    // the three take longer than what a step does besides.
    #[inline(always)]
    fn reached(&self, memory: &[u8], b: u8, i: i16, width: Width) -> Option<usize>
        ensures index_where_the_register_exists_and_all_bytes_lie_inside { result ≡ (if ok b then address (reg (contents_of self.now memory.now) b) i (bytes_of width) (length memory.now) else None) }
    {
        if b < 32 {
            place(self.registers[b as usize], i, width.bytes(), memory.len())
        } else {
            None
        }
    }

    // Whether an instruction can be done in this mode, with these registers and this memory.
    #[inline(always)]
    fn can_do(&self, memory: &[u8], instruction: Instruction) -> bool
        ensures whether_the_instruction_leads_to_a_state { result ≡ is_some (carried self.now.mode (contents_of self.now memory.now) instruction) }
    {
        let Mode::Running(side, _) = self.mode else {
            return false;
        };
        match instruction {
            Instruction::Set { d, .. } => d < 32,
            Instruction::Add { d, s, t } => d < 32 && s < 32 && t < 32,
            Instruction::Mov { d, s }
            | Instruction::Addi { d, s, .. }
            | Instruction::Sign { d, s } => d < 32 && s < 32,
            Instruction::Load { d, b, i, width, .. } => d < 32
                && self.reached(memory, b, i, width).is_some(),
            Instruction::Store { s, b, i, width } => s < 32
                && self.reached(memory, b, i, width).is_some(),
            Instruction::Call => side == Side::Caller,
            Instruction::Ret => side == Side::Callee,
            Instruction::Halt => true,
        }
    }

    // Carries out an instruction that goes on to the next one.
    fn perform(&mut self, memory: &mut [u8], instruction: Instruction)
        requires { is_some (effect instruction (contents_of self.old memory.old)) ≡ true }
        ensures contents_after_are_the_effect { effect instruction (contents_of self.old memory.old) ≡ Some (contents_of self.new memory.new) }
        ensures mode_stays { self.new.mode ≡ self.old.mode }
    {
        match instruction {
            Instruction::Set { d, n } => self.registers[d as usize] = n,
            Instruction::Mov { d, s } => self.registers[d as usize] = self.registers[s as usize],
            Instruction::Add { d, s, t } => {
                self.registers[d as usize] = self.registers[s as usize].wrapping_add(
                    self.registers[t as usize],
                );
            }
            Instruction::Addi { d, s, i } => {
                self.registers[d as usize] = self.registers[s as usize].wrapping_add_signed(
                    i32::from(i),
                );
            }
            Instruction::Sign { d, s } => {
                self.registers[d as usize] = sign(self.registers[s as usize]);
            }
            Instruction::Load {
                d,
                b,
                i,
                width,
                signed,
            } => {
                let at = self.reached(memory, b, i, width).unwrap();
                self.registers[d as usize] = load(memory, at, width, signed);
            }
            Instruction::Store { s, b, i, width } => {
                let at = self.reached(memory, b, i, width).unwrap();
                store(memory, at, width, self.registers[s as usize]);
            }
            // These do not go on to the next one: `step` carries them out.
            Instruction::Call | Instruction::Ret | Instruction::Halt => {}
        }
    }

    // The instruction that the machine comes to, where it is there and can be done.
    #[inline(always)]
    fn fetch(&self, memory: &[u8], program: Program) -> Option<Instruction>
        ensures leads_to_the_next_state { LeadsTo result self.now.mode (contents_of self.now memory.now) (next program.entry.caller.now program.entry.callee.now (state_of self.now memory.now)) }
        ensures next_index_fits { OnSome result (index_of self.now.mode < 2 ^ 64 - 1) }
    {
        let Mode::Running(side, at) = self.mode else {
            return None;
        };
        let code = match side {
            Side::Caller => program.caller,
            Side::Callee => program.callee,
        };
        let instruction = code.get(at).copied()?;
        self.can_do(memory, instruction).then_some(instruction)
    }

    // Makes one step in place; false, with nothing changed, where the machine has ended or is stuck.
    pub fn step(&mut self, memory: &mut [u8], program: Program) -> bool
        ensures state_after_is_the_next_or_the_same { state_of self.new memory.new ≡ or_same (next program.entry.caller.now program.entry.callee.now (state_of self.old memory.old)) (state_of self.old memory.old) }
        ensures answers_whether_there_is_a_next_state { result ≡ is_some (next program.entry.caller.now program.entry.callee.now (state_of self.old memory.old)) }
        ensures what_the_instruction_does_not_write_stays { OnlyWritten (instruction_at self.old.mode program.entry.caller.now program.entry.callee.now) (contents_of self.old memory.old) (contents_of self.new memory.new) }
    {
        let fetched = self.fetch(memory, program);
        match (self.mode, fetched) {
            (Mode::Running(_, at), Some(Instruction::Call)) => {
                // An index may need more than 32 bits: r30 takes the low ones.
                self.registers[30] = ((at + 1) % 0x1_0000_0000) as u32;
                self.mode = Mode::Running(Side::Callee, 0);
            }
            (Mode::Running(_, _), Some(Instruction::Ret)) => {
                self.mode = Mode::Running(Side::Caller, self.registers[30] as usize);
            }
            (Mode::Running(_, _), Some(Instruction::Halt)) => self.mode = Mode::Ended,
            (Mode::Running(side, at), Some(instruction)) => {
                self.perform(memory, instruction);
                self.mode = Mode::Running(side, at + 1);
            }
            (_, None) | (Mode::Ended, _) => return false,
        }
        true
    }

    // Steps until none can be made or `budget` of them are; the steps made.
    fn advance(&mut self, memory: &mut [u8], program: Program, budget: usize) -> usize
        ensures last_state_and_steps_are_those_of_the_run { runs program.entry.caller.now program.entry.callee.now budget (state_of self.old memory.old) ≡ record { last = state_of self.new memory.new; steps = result } }
    {
        for made in 0..budget {
            if !self.step(memory, program) {
                return made;
            }
        }
        budget
    }

    // How a run that stops here came out.
    fn outcome(&self, memory: &[u8], program: Program) -> Outcome
        ensures outcome_of_this_state { result ≡ outcome_of program.entry.caller.now program.entry.callee.now (state_of self.now memory.now) }
    {
        let fetched = self.fetch(memory, program);
        match (self.mode, fetched) {
            (Mode::Ended, _) => Outcome::Ended,
            (Mode::Running(_, _), None) => Outcome::Stuck,
            (Mode::Running(_, _), Some(_)) => Outcome::Spent,
        }
    }

    // Steps until none can be made or `budget` of them are; how it came out, and the steps made.
    pub fn run(
        &mut self,
        memory: &mut [u8],
        program: Program,
        budget: usize,
    ) -> Result<(Outcome, usize), RunFault>
        ensures refuses_with_fault_51_at_0_where_memory_is_too_large { fault_in result ≡ memory_fault (length memory.old) }
        ensures a_refusal_changes_nothing { OnErr result (state_of self.new memory.new ≡ state_of self.old memory.old) }
        ensures state_after_is_the_last_of_the_run { OnOk result (state_of self.new memory.new ≡ (runs program.entry.caller.now program.entry.callee.now budget (state_of self.old memory.old)).last) }
        ensures outcome_is_that_of_the_last_state { IfOk result (λ a. a.0 ≡ outcome_of program.entry.caller.now program.entry.callee.now (runs program.entry.caller.now program.entry.callee.now budget (state_of self.old memory.old)).last) }
        ensures steps_are_those_of_the_run { IfOk result (λ a. a.1 ≡ (runs program.entry.caller.now program.entry.callee.now budget (state_of self.old memory.old)).steps) }
        ensures a_larger_budget_goes_on_from_here { IfOk result (λ a. LargerBudgetGoesOn program.entry.caller.now program.entry.callee.now budget (state_of self.old memory.old) (state_of self.new memory.new) a.1) }
        ensures an_ended_or_stuck_machine_stays_in_0_steps { IfOk result (λ a. StoppedStays program.entry.caller.now program.entry.callee.now (state_of self.old memory.old) (state_of self.new memory.new) a.1) }
        ensures spent_means_budget_used_up_and_still_running { IfOk result (λ a. SpentUsesUpBudget program.entry.caller.now program.entry.callee.now budget (state_of self.new memory.new) a.0 a.1) }
        ensures stuck_exactly_where_the_next_instruction_is_missing_or_cannot_be_done { IfOk result (λ a. StuckExactlyWhere program.entry.caller.now program.entry.callee.now (state_of self.new memory.new) a.0) }
        ensures straight_line_code_composes { IfOk result (λ a. StraightLineComposes program.entry.caller.now program.entry.callee.now budget (state_of self.old memory.old) (state_of self.new memory.new) a.1) }
        ensures a_call_of_straight_line_code_ends { IfOk result (λ a. CallOfStraightLinesEnds program.entry.caller.now program.entry.callee.now budget (state_of self.old memory.old) (state_of self.new memory.new) a.1) }
    {
        if memory.len() > MEMORY_LIMIT {
            return Err(RunFault::MemoryTooLarge);
        }
        let steps = self.advance(memory, program, budget);
        Ok((self.outcome(memory, program), steps))
    }
}
