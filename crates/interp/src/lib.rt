// The interpreter, a port of magnetar-cpu's interp.rs: it runs the rows of an expanded program and writes one record of 17
// words for each cycle into a lent buffer. A cycle is an arm, which says what its row does, and then `commit`, which does it.
#![tactic(auto)]

mod arms;
mod calls;
mod cycle;
mod effect;
mod executing;
mod refusals;
mod run;
mod values;

ghost use Rattle.std.specs.Prelude.{◌≡◌};
ghost use Rattle.interp.specs.Machine.{start_of};
ghost use Rattle.interp.specs.Calls.{refusal_number};
ghost use Rattle.interp.specs.Code.{length_of};
ghost use Rattle.interp.specs.Laws.{CycleLaws};

pub use calls::{demand_3, run_call};
pub use executing::{execute, execute_laws};
use expand::{MicroPc, Word};
pub use values::signed_readings;

// The registers: 32 of the architecture, and as many cells again, of which the first takes what is written to x0.
pub const REGS: usize = 64;

// RAM has 2^8 words.
pub const RAM_WORDS_LOG2: usize = 8;

// The most rows of a call.
pub const MAX_ROWS: usize = 6291456;

// The most that the cycles of a cursor and the length of a segment are together.
pub const MAX_TOTAL_CYCLES: u64 = 0x4000_0000_0000_0000;

// The most that max_cycles of execute is.
pub const MAX_EXECUTE_CYCLES: u64 = 0x1_0000_0000;

// The words of a record.
pub const RECORD_WORDS: usize = 17;

// The machine between two calls: the source's StreamCursor and ExecState in one.
#[derive(Clone, Copy)]
pub struct Cursor {
    // x0 to x31; cell 0 holds the accumulator of a shift, cell 32 what is written to x0.
    pub regs: [Word; Cursor::REGS],
    pub ram: [Word; Cursor::RAM_WORDS],
    pub micro_pc: MicroPc,
    pub cycles: u64,
    pub halted: bool,
    // Register 10 when the machine halted.
    pub output: Word,
    // The next_pc of the last cycle, where padding cycles stay.
    pub next_fetch: MicroPc,
}

impl Cursor {
    pub const REGS: usize = REGS;

    pub const RAM_WORDS: usize = 1 << RAM_WORDS_LOG2;

    // The fresh cursor: all zero, the input in RAM from word 0; words past RAM_WORDS are ignored.
    pub fn start(input: &[u64]) -> Cursor
        ensures { result ≡ start_of input.now }
    {
        let mut ram = [0u64; Cursor::RAM_WORDS];
        let kept = input.len().min(Cursor::RAM_WORDS);
        ram[..kept].copy_from_slice(&input[..kept]);
        Cursor {
            regs: [0; Cursor::REGS],
            ram,
            micro_pc: MicroPc(0),
            cycles: 0,
            halted: false,
            output: 0,
            next_fetch: MicroPc(0),
        }
    }
}

// The record of a cycle. The source's twelve bools are one number, the sum of their bits, because word 16 of a record holds
// that number: twelve fields would be added up again there.
#[derive(Clone, Copy)]
pub struct CycleRecord {
    pub micro_pc: MicroPc,
    pub rs1_val: Word,
    pub rs2_val: Word,
    pub rd_val: Word,
    pub rd_old: Word,
    pub rd: usize,
    pub ram_addr: usize,
    pub ram_word: Word,
    pub ram_old: Word,
    pub ram_new: Word,
    pub store_src: Word,
    pub next_pc: MicroPc,
    pub alu_a: Word,
    pub alu_b: Word,
    pub alu_out: Word,
    pub shift_out: Word,
    pub byte_offset: u8,
    pub store_width: u8,
    pub flags: u64,
}

impl CycleRecord {
    pub const WE: u64 = 0x001;

    pub const BRANCH_TAKEN: u64 = 0x002;

    pub const IS_ARITH: u64 = 0x004;

    pub const IS_LOGIC: u64 = 0x008;

    pub const IS_SUB_OP: u64 = 0x010;

    pub const IS_SHIFT: u64 = 0x020;

    pub const IS_LOAD: u64 = 0x040;

    pub const IS_STORE: u64 = 0x080;

    pub const LD_BYTE: u64 = 0x100;

    pub const LD_HALF: u64 = 0x200;

    pub const LD_WORD: u64 = 0x400;

    pub const HALTED_LATCH: u64 = 0x800;
}

// What a call is asked for, and of how many cycles.
#[derive(Clone, Copy, Debug, PartialEq, Eq)]
pub enum Request {
    // The segment call: so many cycles, live until the machine halts, then padding.
    Segment(u64),
    // The padding call: so many padding cycles at row next_fetch, also on a live machine.
    Padding(u64),
}

impl Request {
    // How many cycles, and so how many records.
    pub(crate) fn length(self) -> u64
        ensures { result ≡ length_of self }
    {
        match self {
            Request::Segment(n) => n,
            Request::Padding(n) => n,
        }
    }
}

// Why a call is refused. `expand` has a narrower type of this name, since its call can meet three of these cases only.
#[derive(Clone, Copy, Debug, PartialEq, Eq)]
pub enum Refusal {
    // 1: there are no rows.
    NoRows,
    // 2: there are more than MAX_ROWS rows.
    TooManyRows,
    // 3: the rows are not the expansion of a program.
    NoExpansion,
    // 4: micro_pc or next_fetch is no row.
    OutsideRows,
    // 5: cycles and length are over MAX_TOTAL_CYCLES together, or max_cycles is over MAX_EXECUTE_CYCLES.
    TooManyCycles,
    // 6: the buffer has fewer than 17 words a record.
    Short,
}

// Its number in document 01's table.
impl From<Refusal> for u64 {
    ghost from_gives = { λ why number. number ≡ refusal_number why };

    fn from(why: Refusal) -> u64 {
        match why {
            Refusal::NoRows => 1,
            Refusal::TooManyRows => 2,
            Refusal::NoExpansion => 3,
            Refusal::OutsideRows => 4,
            Refusal::TooManyCycles => 5,
            Refusal::Short => 6,
        }
    }
}

// The answer of a call. The cursor stands beside the outcome and not in it, since it comes back in both cases: a refused call
// hands back the one that it got.
#[derive(Clone, Copy)]
pub struct Answer {
    pub outcome: Result<(), Refusal>,
    pub cursor: Cursor,
}

// What execute answers if it is accepted: how many cycles were live, how many records there are, and the cursor after padding.
#[derive(Clone, Copy)]
pub struct Execution {
    pub live_count: u64,
    pub record_count: u64,
    pub cursor: Cursor,
}

// What the crates above use of cycles and calls (specs/Laws.antt). The function does nothing; its contract is the claim.
pub fn cycle_laws()
    ensures { CycleLaws }
{}
