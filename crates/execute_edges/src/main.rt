// Runs execute and the sameness call at their limits. A line has the number and the counts that
// execute returned and what was compared, with WRONG in front of what differs. A right buffer holds
// the records and past them what it held before.
#![tactic(auto)]

mod compare;
mod sameness;

use compare::{Case, Length};
use edges::{
    ADD, ECALL, FIVE, HLT, M1, Record, STAGES, WE, at, fresh, halted, with_cycles, with_ram,
    with_reg,
};
use interp::{Cursor, Execution, Refusal};
use report::Console;

// The most cycles of execute, not `interp::MAX_EXECUTE_CYCLES`: a test has its own number.
const MAX_EXECUTE_CYCLES: u64 = 0x1_0000_0000;

// Word 16 of a record: a load of a word; a store of 8 bytes.
const LD: u64 = 0x445_0000;

const STORE: u64 = 0x80_0800;

// The records of M1.
const FIRST: Record = [0, 0, 0, 5, 0, 10, 0, 0, 0, 0, 0, 1, 0, 5, 5, 0, 327680];

const SECOND: Record = [1, 5, 0, 5, 0, 32, 0, 0, 0, 0, 0, 1, 5, 0, 5, 0, 134217728];

// jal x0,0; its record, and the padding record at row 0 that writes 0 to cell 32.
const LOOP: u64 = 0x0000_006f;

const JUMP: Record = [0, 0, 0, 0, 0, 32, 0, 0, 0, 0, 0, 0, 0, 0, 0, 0, 0];

const LATCH: Record = [0, 0, 0, 0, 0, 32, 0, 0, 0, 0, 0, 0, 0, 0, 0, 0, HLT];

// A case without input. A test has console and name as parameters up to here, where its case takes them.
fn on<'a>(to: Console, name: &'a str, rows: &'a [u64]) -> Case<'a> {
    Case::new(to, name, rows, &[])
}

// The fresh machine, of which these registers are set.
fn set(cells: &[(usize, u64)]) -> Cursor {
    cells.iter().fold(fresh(), |machine, (i, value)| with_reg(machine, *i, *value))
}

// A machine with these words in RAM, from word 0 on.
fn loaded(machine: Cursor, words: &[u64]) -> Cursor {
    words
        .iter()
        .enumerate()
        .fold(machine, |machine, (i, word)| with_ram(machine, i, *word))
}

// The answer after so many live cycles, and padding up to so many records: the machine is at this row.
fn ran(live_count: u64, record_count: u64, row: usize, machine: Cursor) -> Execution {
    Execution {
        live_count,
        record_count,
        cursor: with_cycles(at(machine, row, row), live_count),
    }
}

// ---- M1

// Exactly the words that execute asks for, and more.
fn run_example(to: Console) {
    let lengths = [
        (8, 136),
        (2, 34),
        (3, 68),
        (4, 68),
        (5, 136),
        (2, 35),
        (2, 160),
        (3, 69),
        (8, 160),
    ];
    let want = ran(2, 2, 1, halted(set(&[(10, 5), (32, 5)]), 5));
    on(to, "M1", &M1).runs(&lengths, want, &[FIRST, SECOND]);
}

// M9, a padding record before the first cycle; and the first cycle alone.
fn run_beginning(to: Console) {
    let latch = [0, 0, 0, 0, 0, 10, 0, 0, 0, 0, 0, 0, 0, 0, 0, 0, HLT];
    let want = ran(0, 1, 0, fresh());
    on(to, "M9", &M1).runs(&[(0, 17), (0, 160)], want, &[latch]);
    let want = ran(1, 1, 1, set(&[(10, 5)]));
    on(to, "M1", &M1).runs(&[(1, 17), (1, 160)], want, &[FIRST]);
}

// ---- machines that do not halt

fn jumps(to: Console, length: Length, count: u64, records: &[Record]) {
    let (max_cycles, _) = length;
    let want = ran(max_cycles, count, 0, fresh());
    on(to, "0x0000006f", &[LOOP]).runs(&[length], want, records);
}

fn run_endless(to: Console) {
    jumps(to, (0, 17), 1, &[LATCH]);
    jumps(to, (1, 17), 1, &[JUMP]);
    jumps(to, (3, 68), 4, &[JUMP, JUMP, JUMP, LATCH]);
    jumps(to, (4, 68), 4, &[JUMP; 4]);
    let five = [JUMP, JUMP, JUMP, JUMP, JUMP, LATCH, LATCH, LATCH];
    jumps(to, (5, 136), 8, &five);
    jumps(to, (8, 136), 8, &[JUMP; 8]);
}

// addi x1,x1,1 alone, whose next row is itself: padding writes the output, 0, into x1.
fn run_counter(to: Console) {
    let counter = on(to, "x1 + 1", &[0x0010_8093]);
    let a = [0, 0, 0, 1, 0, 1, 0, 0, 0, 0, 0, 0, 0, 1, 1, 0, ADD];
    let b = [0, 1, 1, 2, 1, 1, 0, 0, 0, 0, 0, 0, 1, 1, 2, 0, ADD];
    let c = [0, 2, 2, 3, 2, 1, 0, 0, 0, 0, 0, 0, 2, 1, 3, 0, ADD];
    let pad = [0, 3, 3, 0, 3, 1, 0, 0, 0, 0, 0, 0, 0, 0, 0, 0, HLT];
    counter.runs(&[(2, 34)], ran(2, 2, 0, set(&[(1, 2)])), &[a, b]);
    let want = ran(3, 4, 0, set(&[(1, 0)]));
    counter.runs(&[(3, 68)], want, &[a, b, c, pad]);
}

// ---- machines that halt

// A System row's record and the padding record are the same here.
fn run_halt(to: Console) {
    let halt = on(to, "0x00000073", &[ECALL]);
    halt.runs(&[(0, 17)], ran(0, 1, 0, fresh()), &[LATCH]);
    let want = ran(1, 1, 0, halted(fresh(), 0));
    halt.runs(&[(1, 17), (2, 34), (8, 136)], want, &[LATCH]);
}

// addi x10,x10,1 four times, and ecall: 5 live cycles, and three of padding.
fn run_five(to: Console) {
    let rows = [0x0015_0513, 0x0015_0513, 0x0015_0513, 0x0015_0513, ECALL];
    let a = [0, 0, 0, 1, 0, 10, 0, 0, 0, 0, 0, 1, 0, 1, 1, 0, ADD];
    let b = [1, 1, 0, 2, 1, 10, 0, 0, 0, 0, 0, 2, 1, 1, 2, 0, ADD];
    let c = [2, 2, 0, 3, 2, 10, 0, 0, 0, 0, 0, 3, 2, 1, 3, 0, ADD];
    let d = [3, 3, 0, 4, 3, 10, 0, 0, 0, 0, 0, 4, 3, 1, 4, 0, ADD];
    let halt = [4, 4, 0, 4, 0, 32, 0, 0, 0, 0, 0, 4, 4, 0, 4, 0, HLT];
    let pad = [4, 4, 0, 4, 4, 32, 0, 0, 0, 0, 0, 4, 0, 0, 0, 0, HLT];
    let want = ran(4, 4, 4, set(&[(10, 4)]));
    on(to, "4 of 5", &rows).runs(&[(4, 68)], want, &[a, b, c, d]);
    let want = ran(5, 8, 4, halted(set(&[(10, 4), (32, 4)]), 4));
    let records = [a, b, c, d, halt, pad, pad, pad];
    on(to, "5 of 5", &rows).runs(&[(5, 136), (8, 136)], want, &records);
}

// ---- the input and RAM

// ld x10,2040(x0) and ecall: RAM word 255, here z, is the output; ecall's record shows RAM word 0, a.
fn loads(to: Console, input: &[u64], ram: &[u64], a: u64, z: u64) {
    let load = [0, 0, 0, z, 0, 10, 255, z, 0, 0, 0, 1, 0, 2040, 2040, 0, LD];
    let halt = [1, z, 0, z, 0, 32, 0, a, 0, 0, 0, 1, z, 0, z, 0, HLT];
    let machine = loaded(set(&[(10, z), (32, z)]), ram);
    let want = ran(2, 2, 1, halted(machine, z));
    let case = Case::new(to, "load", &[0x7f80_3503, ECALL], input);
    case.runs(&[(2, 34)], want, &[load, halt]);
}

fn run_input(to: Console) {
    let mut words = [0u64; 300];
    for (i, word) in words.iter_mut().enumerate() {
        *word = 1000 + i as u64;
    }
    loads(to, &[], &[], 0, 0);
    loads(to, &words[..1], &words[..1], 1000, 0);
    loads(to, &words[..255], &words[..255], 1000, 0);
    loads(to, &words[..256], &words[..256], 1000, 1255);
    loads(to, &words[..257], &words[..256], 1000, 1255);
    loads(to, &words, &words[..256], 1000, 1255);
}

// addi x1,x0,5; sd x1,16(x0); ecall. Records show RAM word 0, that of the store word 2.
fn run_store(to: Console) {
    let rows = [0x0050_0093, 0x0010_3823, ECALL];
    let add = [0, 0, 0, 5, 0, 1, 0, 7, 0, 0, 0, 1, 0, 5, 5, 0, ADD];
    let store = [1, 0, 5, 0, 0, 32, 2, 0, 0, 5, 5, 2, 0, 16, 16, 0, STORE];
    let halt = [2, 0, 0, 0, 0, 32, 0, 7, 0, 0, 0, 2, 0, 0, 0, 0, HLT];
    let machine = loaded(set(&[(1, 5)]), &[7, 0, 5]);
    let want = ran(3, 4, 2, halted(machine, 0));
    let case = Case::new(to, "store", &rows, &[7]);
    case.runs(&[(4, 68)], want, &[add, store, halt, halt]);
}

// ---- a register shift

// max_cycles ends inside its six rows.
fn run_cut_shift(to: Console) {
    let records = [
        [0, 0, 0, 0, 0, 32, 0, 0, 0, 0, 0, 1, 0, 0, 0, 0, 0],
        [1, 0, 0, 0, 0, 32, 0, 0, 0, 0, 0, 2, 0, 0, 0, 0, 0],
        [2, 0, 0, 0, 0, 32, 0, 0, 0, 0, 0, 3, 0, 0, 0, 0, 0],
        [3, 0, 0, 0, 0, 32, 0, 0, 0, 0, 0, 3, 0, 0, 0, 0, HLT],
    ];
    let want = ran(3, 4, 3, fresh());
    on(to, "shift", &STAGES).runs(&[(3, 68)], want, &records);
}

// addi x1,x0,1; addi x2,x0,3; the shift, which is M5. After three of its rows, and after all: the row
// after the last is row 0.
fn run_shift(to: Console) {
    let [s0, s1, s2, s3, s4, s5] = STAGES;
    let rows = [0x0010_0093, 0x0030_0113, s0, s1, s2, s3, s4, s5];
    let one = [0, 0, 0, 1, 0, 1, 0, 0, 0, 0, 0, 1, 0, 1, 1, 0, ADD];
    let three = [1, 0, 0, 3, 0, 2, 0, 0, 0, 0, 0, 2, 0, 3, 3, 0, ADD];
    let a = [2, 1, 3, 0, 0, 32, 0, 0, 0, 0, 0, 3, 1, 3, 2, 0, 0];
    let b = [3, 1, 3, 0, 0, 32, 0, 0, 0, 0, 0, 4, 1, 3, 8, 0, 0];
    let c = [4, 1, 3, 0, 0, 32, 0, 0, 0, 0, 0, 5, 1, 3, 8, 0, 0];
    let pad = [5, 1, 3, 0, 0, 32, 0, 0, 0, 0, 0, 5, 0, 0, 0, 0, HLT];
    let d = [5, 1, 3, 0, 0, 32, 0, 0, 0, 0, 0, 6, 1, 3, 8, 0, 0];
    let e = [6, 1, 3, 0, 0, 32, 0, 0, 0, 0, 0, 7, 1, 3, 8, 0, 0];
    let f = [7, 1, 3, 8, 0, 3, 0, 0, 0, 0, 0, 0, 1, 3, 8, 0, WE];
    let want = ran(5, 8, 5, set(&[(0, 8), (1, 1), (2, 3)]));
    let records = [one, three, a, b, c, pad, pad, pad];
    on(to, "M5 cut", &rows).runs(&[(5, 136)], want, &records);
    let want = ran(8, 8, 0, set(&[(0, 8), (1, 1), (2, 3), (3, 8)]));
    let records = [one, three, a, b, c, d, e, f];
    on(to, "M5", &rows).runs(&[(8, 136)], want, &records);
}

// ---- refusals

// In spite of the input nothing is handed back.
fn refuses(to: Console, name: &str, rows: &[u64], lengths: &[Length], why: Refusal) {
    Case::new(to, name, rows, &[7; 3]).refuses(lengths, why);
}

fn no_expansion(to: Console, name: &str, rows: &[u64]) {
    refuses(to, name, rows, &[(8, 136)], Refusal::NoExpansion);
}

fn run_damaged(to: Console) {
    let [s0, s1, s2, s3, s4, _] = STAGES;
    no_expansion(to, "stage 1 alone", &[FIVE, ECALL, s1]);
    no_expansion(to, "stage 0 alone", &[FIVE, s0, ECALL]);
    no_expansion(to, "stage 5 cut off", &[FIVE, s0, s1, s2, s3, s4]);
    no_expansion(to, "33 bits", &[0x1_0050_0513, ECALL]);
}

// The lowest number of those that are met: 1, 5 and 6; 3, 5 and 6.
fn run_several(to: Console) {
    let lengths = [
        (8, 136),
        (0, 17),
        (8, 0),
        (MAX_EXECUTE_CYCLES + 1, 160),
        (u64::MAX, 0),
    ];
    refuses(to, "no rows", &[], &lengths, Refusal::NoRows);
    let damaged = [FIVE, STAGES[1]];
    let why = Refusal::NoExpansion;
    refuses(to, "damaged rows", &damaged, &lengths, why);
}

// 5, also with 6.
fn run_lengths(to: Console) {
    let long = [
        (MAX_EXECUTE_CYCLES + 1, 160),
        (MAX_EXECUTE_CYCLES + 1, 0),
        (u64::MAX, 160),
        (u64::MAX, 0),
    ];
    refuses(to, "M1", &M1, &long, Refusal::TooManyCycles);
}

// One word less than is asked for; room for M1's two records, but not for max_cycles; and the most
// cycles, which ask for 17 * 2^32 words.
fn run_short(to: Console) {
    let short = [
        (0, 16),
        (1, 16),
        (2, 33),
        (3, 67),
        (4, 67),
        (5, 135),
        (8, 135),
        (0, 0),
        (3, 34),
        (8, 34),
        (9, 160),
        (MAX_EXECUTE_CYCLES, 0),
        (MAX_EXECUTE_CYCLES, 160),
    ];
    refuses(to, "M1", &M1, &short, Refusal::Short);
}

fn main(rt: HostRuntime) {
    let to = Console::of(&rt);
    run_example(to);
    run_beginning(to);
    run_endless(to);
    run_counter(to);
    run_halt(to);
    run_five(to);
    run_input(to);
    run_store(to);
    run_cut_shift(to);
    run_shift(to);
    run_damaged(to);
    run_several(to);
    run_lengths(to);
    run_short(to);
    sameness::run(to);
}
