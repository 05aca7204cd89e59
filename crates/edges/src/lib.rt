// What the programs that run calls and compare have in common: the rows of a register shift, cursors,
// their cells, and words about what was compared.
#![tactic(auto)]

ghost use Rattle.std.specs.Prelude.{◌≡◌, MatchResult, ◌+◌, ◌^◌, ◌≤◌, cond, take, set, ltb, []};
ghost use Rattle.interp.specs.Machine.{start_of};
ghost use Rattle.edges.specs.Compare.{differ_place, wrong_place};
ghost use Rattle.edges.specs.Cursors.{numbers_of, cells_of, up_from, marked_regs, marked_ram, marked_cursor, at_rows, with_cycles, with_reg, with_ram, with_cell, halted_with};

use expand::MicroPc;
use interp::{Cursor, RECORD_WORDS};
use report::Console;

// What a place of a record buffer holds before a call.
pub const GUARD: u64 = 0xa5a5_a5a5_a5a5_a5a5;

// The places of a record buffer that calls at their limits are lent the first of.
pub const PLACES: usize = 160;

// The words of a record.
pub type Record = [u64; RECORD_WORDS];

// Word 16 of a record: we and is_arith; we; halted_latch.
pub const ADD: u64 = 0x5_0000;

pub const WE: u64 = 0x1_0000;

pub const HLT: u64 = 0x800_0000;

// addi x10,x0,5 and ecall, document 01's example M1.
pub const FIVE: u64 = 0x0050_0513;

pub const ECALL: u64 = 0x0000_0073;

pub const M1: [u64; 2] = [FIVE, ECALL];

// The registers and the RAM of a cursor as one list of cells: register i at place i, RAM word i behind
// them.
pub const CELLS: usize = Cursor::REGS + Cursor::RAM_WORDS;

pub type Cells = [u64; CELLS];

// sll x3,x1,x2, and the row words of its six stages.
pub const SLL: u32 = 0x0020_91b3;

pub const STAGES: [u64; 6] = [
    0x0_0020_91b3,
    0x1_0020_91b3,
    0x2_0020_91b3,
    0x3_0020_91b3,
    0x4_0020_91b3,
    0x5_0020_91b3,
];

// ---- comparing

// The number that a call returns: 0 is accepted, a refusal has its own.
pub fn number_of<T: Copy, E: Into<u64>>(outcome: Result<T, E>) -> u64
    ensures { MatchResult outcome (λ _. result ≡ 0) (λ why. E.converts why result) }
{
    match outcome {
        Ok(_) => 0,
        Err(why) => why.into(),
    }
}

// Says a number that is not the expected one, and answers whether it is. Words in bytes, here and below,
// end in the space before what follows them.
pub fn say_wrong(to: Console, what: &[u8], want: u64, found: u64) -> bool {
    if want != found {
        to.say(", WRONG ");
        to.say_bytes(what);
        to.say(format_args!("{found}, expected {want}"));
    }
    want == found
}

// The first place of `found` that does not hold what `want` has there, or `rest` past it.
#[tactic(auto, using(crate::proofs::Lists::same_on, crate::proofs::Lists::other_is, crate::proofs::Lists::none_is))]
fn differ_at(want: &[u64], rest: u64, found: &[u64]) -> Option<usize>
    ensures { result ≡ differ_place want.now rest found.now }
{
    // A `for`, since the proof that `position` finds the place did not close.
    for i in 0..found.len() {
        if found[i] != want.get(i).copied().unwrap_or(rest) {
            return Some(i);
        }
    }
    None
}

// The same, or the end of `found` where `want` goes on.
fn wrong_at(want: &[u64], rest: u64, found: &[u64]) -> Option<usize>
    ensures { result ≡ wrong_place want.now rest found.now }
{
    let missing = (found.len() < want.len()).then_some(found.len());
    differ_at(want, rest, found).or(missing)
}

// Says the first place where `found` is not `want` and then `rest`, and answers whether there is none.
pub fn say_differs(to: Console, what: &[u8], want: &[u64], rest: u64, found: &[u64]) -> bool {
    let wrong = wrong_at(want, rest, found);
    if let Some(at) = wrong {
        to.say(", WRONG ");
        to.say_bytes(what);
        to.say(at);
    }
    wrong.is_none()
}

// Says whether `found` is `want` and then `rest`: that it is right, or the first place that is not. The
// words are text, and end in no space.
pub fn say_list(to: Console, what: &str, want: &[u64], rest: u64, found: &[u64]) {
    match wrong_at(want, rest, found) {
        Some(at) => to.say(format_args!(", WRONG {what} {at}")),
        None => to.say(format_args!(", {what} right")),
    }
}

// The same of words in bytes, which need not be text.
pub fn say_list_bytes(to: Console, what: &[u8], want: &[u64], rest: u64, found: &[u64]) {
    if say_differs(to, what, want, rest, found) {
        to.say(", ");
        to.say_bytes(what);
        to.say("right");
    }
}

// The first `count` places; all of them, where there are no more.
pub fn first_of<T>(places: &[T], count: usize) -> &[T]
    ensures { result.now ≡ take count places.now }
{
    &places[..count.min(places.len())]
}

// ---- cursors

pub fn cells_of(cursor: Cursor) -> Cells
    ensures { result ≡ cells_of cursor }
{
    let mut cells = [0u64; CELLS];
    cells[..Cursor::REGS].copy_from_slice(&cursor.regs);
    cells[Cursor::REGS..].copy_from_slice(&cursor.ram);
    cells
}

// The names of a cursor's numbers, in their order, each with the space before its number.
pub const NUMBER_NAMES: [&str; 5] = ["micro_pc ", "cycles ", "halted ", "output ", "next_fetch "];

pub fn numbers_of(cursor: Cursor) -> [u64; 5]
    ensures { result ≡ numbers_of cursor }
{
    [
        cursor.micro_pc.0 as u64,
        cursor.cycles,
        u64::from(cursor.halted),
        cursor.output,
        cursor.next_fetch.0 as u64,
    ]
}

pub fn fresh() -> Cursor
    ensures { result ≡ start_of [] }
{
    Cursor::start(&[])
}

// N numbers from `first` on.
#[tactic(auto, using(crate::proofs::Lists::next_number, crate::proofs::Lists::all_numbers))]
fn up_from<const N: usize>(first: u64) -> [u64; N]
    requires { first + N ≤ 2 ^ 64 }
    ensures { result ≡ up_from N first }
{
    let mut numbers = [0u64; N];
    for (i, number) in numbers.iter_mut().enumerate() {
        *number = first + i as u64;
    }
    numbers
}

fn marked_regs() -> [u64; Cursor::REGS]
    ensures { result ≡ marked_regs }
{
    let mut regs = up_from(30);
    regs[0] = 0;
    regs
}

fn marked_ram() -> [u64; Cursor::RAM_WORDS]
    ensures { result ≡ marked_ram }
{
    up_from(94)
}

// A live cursor after 3 cycles with output 9, in which no two cells are the same: x5 is 35, x10 is
// 40, cell 32 is 62 and RAM word 0 is 94.
pub fn marked() -> Cursor
    ensures { result ≡ marked_cursor }
{
    Cursor {
        regs: marked_regs(),
        ram: marked_ram(),
        micro_pc: MicroPc(0),
        cycles: 3,
        halted: false,
        output: 9,
        next_fetch: MicroPc(0),
    }
}

pub fn at(cursor: Cursor, pc: usize, fetch: usize) -> Cursor
    ensures { result ≡ at_rows cursor pc fetch }
{
    Cursor {
        micro_pc: MicroPc(pc),
        next_fetch: MicroPc(fetch),
        ..cursor
    }
}

pub fn with_cycles(cursor: Cursor, cycles: u64) -> Cursor
    ensures { result ≡ with_cycles cursor cycles }
{
    Cursor { cycles, ..cursor }
}

// There is no cell past the last, and nothing to set.
pub fn with<const N: usize>(mut cells: [u64; N], i: usize, value: u64) -> [u64; N]
    ensures { result ≡ cond (ltb i N) (set cells.entry i value) cells.entry }
{
    if i < N {
        cells[i] = value;
    }
    cells
}

pub fn with_reg(cursor: Cursor, i: usize, value: u64) -> Cursor
    ensures { result ≡ with_reg cursor i value }
{
    Cursor {
        regs: with(cursor.regs, i, value),
        ..cursor
    }
}

pub fn with_ram(cursor: Cursor, i: usize, value: u64) -> Cursor
    ensures { result ≡ with_ram cursor i value }
{
    Cursor {
        ram: with(cursor.ram, i, value),
        ..cursor
    }
}

pub fn with_cell(cursor: Cursor, place: usize, value: u64) -> Cursor
    ensures { result ≡ with_cell cursor place value }
{
    if place < Cursor::REGS {
        return with_reg(cursor, place, value);
    }
    with_ram(cursor, place - Cursor::REGS, value)
}

pub fn halted(cursor: Cursor, output: u64) -> Cursor
    ensures { result ≡ halted_with cursor output }
{
    Cursor {
        halted: true,
        output,
        ..cursor
    }
}
