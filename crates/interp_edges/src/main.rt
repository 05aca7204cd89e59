// Runs the segment call and the padding call at their limits, and document 01's cases that are easily
// mistaken. A line has the number that a call returned and what was compared, with WRONG in front of
// what differs. A right buffer holds the records and past them what it held before.
#![tactic(auto)]

mod compare;

use compare::Case;
use edges::{
    ADD, ECALL, FIVE, HLT, M1, Record, STAGES, WE, at, fresh, halted, marked, with_cycles, with_reg,
};
use interp::Request::{Padding, Segment};
use interp::{Cursor, Refusal};
use report::Console;

// The most cycles of a machine, not `interp::MAX_TOTAL_CYCLES`: a test has its own number.
const MAX_TOTAL_CYCLES: u64 = 0x4000_0000_0000_0000;

// Word 16 of a record: a taken branch.
const TAKEN: u64 = 0x16_0000;

// addi x0,x0,0.
const NOP: u64 = 0x0000_0013;

// The records of M1's rows from the marked cursor, and of the second after the first.
const LIVE: Record = [0, 0, 35, 5, 40, 10, 0, 94, 0, 0, 0, 1, 0, 5, 5, 0, ADD];

const HALT: Record = [1, 40, 0, 40, 62, 32, 0, 94, 0, 0, 0, 1, 40, 0, 40, 0, HLT];

const NEXT: Record = [1, 5, 0, 5, 62, 32, 0, 94, 0, 0, 0, 1, 5, 0, 5, 0, HLT];

// The padding records at M1's rows from the marked cursor.
const PAD0: Record = [0, 0, 35, 9, 40, 10, 0, 94, 0, 0, 0, 0, 0, 0, 0, 0, HLT];

const PAD1: Record = [1, 40, 0, 9, 62, 32, 0, 94, 0, 0, 0, 1, 0, 0, 0, 0, HLT];

// A case on M1's rows. A test has console and name as parameters up to here, where its case takes them.
fn on_m1<'a>(to: Console, name: &'a str, cursor: Cursor) -> Case<'a> {
    Case::new(to, name, &M1, cursor)
}

// M1, with a padding record after the halt; M9, a padding record before the first cycle.
fn run_example(to: Console) {
    let start = fresh();
    let five = [0, 0, 0, 5, 0, 10, 0, 0, 0, 0, 0, 1, 0, 5, 5, 0, 327680];
    let ecall = [1, 5, 0, 5, 0, 32, 0, 0, 0, 0, 0, 1, 5, 0, 5, 0, 134217728];
    let latch = [1, 5, 0, 5, 5, 32, 0, 0, 0, 0, 0, 1, 0, 0, 0, 0, HLT];
    let set = with_reg(with_reg(start, 10, 5), 32, 5);
    let end = halted(with_cycles(at(set, 1, 1), 2), 5);
    on_m1(to, "M1", start).writes(Segment(2), &[five, ecall], end);
    let longer = on_m1(to, "M1, 3 cycles", start);
    longer.writes(Segment(3), &[five, ecall, latch], end);
    let first = [0, 0, 0, 0, 0, 10, 0, 0, 0, 0, 0, 0, 0, 0, 0, 0, HLT];
    on_m1(to, "M9", start).writes(Padding(1), &[first], start);
}

// The last row, for each position alone.
fn run_inside(to: Console) {
    let low = at(marked(), 1, 0);
    let end = halted(with_cycles(at(with_reg(low, 32, 40), 1, 1), 4), 40);
    let pc = on_m1(to, "micro_pc at rows - 1", low);
    pc.writes(Segment(1), &[HALT], end);
    pc.writes(Padding(1), &[PAD0], with_reg(low, 10, 9));
    let high = at(marked(), 0, 1);
    let live = with_cycles(at(with_reg(high, 10, 5), 1, 1), 4);
    let fetch = on_m1(to, "next_fetch at rows - 1", high);
    fetch.writes(Segment(1), &[LIVE], live);
    fetch.writes(Padding(1), &[PAD1], with_reg(high, 32, 9));
}

// Both calls of one cycle, with these positions.
fn outside(to: Console, name: &str, pc: usize, fetch: usize) {
    on_m1(to, name, at(marked(), pc, fetch)).both_refuse(1, 17, Refusal::OutsideRows);
}

fn run_outside(to: Console) {
    outside(to, "micro_pc at rows", 2, 0);
    outside(to, "next_fetch at rows", 0, 2);
    outside(to, "micro_pc 2^64 - 1", usize::MAX, 0);
    outside(to, "next_fetch 2^64 - 1", 0, usize::MAX);
}

// Calls of one cycle, up to the most cycles. Padding has no such limit.
fn run_last_cycle(to: Console) {
    let last = with_cycles(marked(), MAX_TOTAL_CYCLES - 1);
    let live = with_cycles(at(with_reg(last, 10, 5), 1, 1), MAX_TOTAL_CYCLES);
    on_m1(to, "cycles and length 2^62", last).writes(Segment(1), &[LIVE], live);
    let still = halted(last, 9);
    let name = "halted, cycles and length 2^62";
    on_m1(to, name, still).writes(Segment(1), &[PAD0], with_reg(still, 10, 9));
    let most = with_cycles(marked(), u64::MAX);
    on_m1(to, "cycles 2^64 - 1", most).writes(Padding(1), &[PAD0], with_reg(most, 10, 9));
}

fn run_past_cycles(to: Console) {
    let too_many = Err(Refusal::TooManyCycles);
    let full = with_cycles(marked(), MAX_TOTAL_CYCLES);
    on_m1(to, "cycles and length 2^62 + 1", full).keeps(Segment(1), 17, too_many);
    on_m1(to, "halted, the same", halted(full, 9)).keeps(Segment(1), 17, too_many);
    let over = with_cycles(marked(), MAX_TOTAL_CYCLES + 1);
    on_m1(to, "length 0, cycles 2^62 + 1", over).keeps(Segment(0), 0, too_many);
    let most = with_cycles(marked(), u64::MAX);
    on_m1(to, "length 0, cycles 2^64 - 1", most).keeps(Segment(0), 0, too_many);
    on_m1(to, "length 1, cycles 2^64 - 1", most).keeps(Segment(1), 17, too_many);
    on_m1(to, "halted, the same", halted(most, 9)).keeps(Segment(1), 17, too_many);
}

// Length 0 is accepted and changes nothing.
fn run_empty(to: Console) {
    let none = on_m1(to, "length 0, no words lent", marked());
    none.keeps(Segment(0), 0, Ok(()));
    none.keeps(Padding(0), 0, Ok(()));
    let some = on_m1(to, "length 0, 17 words lent", marked());
    some.keeps(Segment(0), 17, Ok(()));
    some.keeps(Padding(0), 17, Ok(()));
    let still = halted(marked(), 9);
    on_m1(to, "length 0, halted", still).keeps(Segment(0), 0, Ok(()));
    let full = with_cycles(marked(), MAX_TOTAL_CYCLES);
    on_m1(to, "length 0, cycles 2^62", full).keeps(Segment(0), 0, Ok(()));
}

// 17 words a record, and one less.
fn run_room(to: Console) {
    let start = marked();
    let set = with_reg(with_reg(start, 10, 5), 32, 5);
    let end = halted(with_cycles(at(set, 1, 1), 5), 5);
    let full = on_m1(to, "2 records, 34 words", start);
    full.writes(Segment(2), &[LIVE, NEXT], end);
    let again = [0, 0, 35, 9, 9, 10, 0, 94, 0, 0, 0, 0, 0, 0, 0, 0, HLT];
    full.writes(Padding(2), &[PAD0, again], with_reg(start, 10, 9));
    let short = Refusal::Short;
    on_m1(to, "2 records, 33 words", start).both_refuse(2, 33, short);
    on_m1(to, "1 record, 16 words", start).both_refuse(1, 16, short);
    on_m1(to, "1 record, no words", start).both_refuse(1, 0, short);
}

// Both calls of `n` cycles. The segment call is refused for this reason, the padding call for its room.
fn too_long(to: Console, name: &str, cursor: Cursor, n: u64, why: Refusal) {
    let case = on_m1(to, name, cursor);
    case.keeps(Segment(n), 160, Err(why));
    case.keeps(Padding(n), 160, Err(Refusal::Short));
}

fn run_lengths(to: Console) {
    let none = with_cycles(marked(), 0);
    let most = u64::MAX;
    let too_many = Refusal::TooManyCycles;
    too_long(to, "length 2^64 - 1", marked(), most, too_many);
    too_long(to, "length 2^64 - 2", marked(), most - 1, too_many);
    too_long(to, "length 2^62 + 1", none, MAX_TOTAL_CYCLES + 1, too_many);
    let name = "length 2^62, cycles 0";
    too_long(to, name, none, MAX_TOTAL_CYCLES, Refusal::Short);
}

// 17 times such a length is just past a multiple of 2^64, and would seem to fit if it wrapped.
fn run_products(to: Console) {
    let a = 0x0f0f_0f0f_0f0f_0f10;
    too_long(to, "17 times length 2^64 + 16", marked(), a, Refusal::Short);
    let b = 0xf0f0_f0f0_f0f0_f0f1;
    let name = "17 times length 2^68 + 1";
    too_long(to, name, marked(), b, Refusal::TooManyCycles);
}

fn no_expansion(to: Console, name: &str, rows: &[u64]) {
    Case::new(to, name, rows, marked()).both_refuse(1, 17, Refusal::NoExpansion);
}

fn run_damaged(to: Console) {
    let [s0, s1, s2, s3, s4, s5] = STAGES;
    no_expansion(
        to,
        "a plain row with an upper half",
        &[0x1_0050_0513, ECALL],
    );
    no_expansion(to, "stage 3 missing", &[s0, s1, s2, s4, s5, ECALL]);
    no_expansion(to, "stage 3 changed to 2", &[s0, s1, s2, s2, s4, s5]);
    let other = [s0, s1, s2, s3 + 0x80, s4, s5];
    no_expansion(to, "stage 3 of another shift", &other);
    no_expansion(to, "stage 5 cut off", &[FIVE, s0, s1, s2, s3, s4]);
    no_expansion(to, "stage 0 alone", &[FIVE, s0, ECALL]);
    no_expansion(to, "stage 1 alone", &[FIVE, ECALL, s1]);
}

// Several conditions at once: the lowest number is returned. The name has all numbers that are met;
// 5 is none of padding's.
fn run_several(to: Console) {
    let damaged = [FIVE, STAGES[1]];
    let long = u64::MAX;
    let most = with_cycles(marked(), u64::MAX);
    let outside = at(most, 2, 2);
    Case::new(to, "no rows", &[], marked()).both_refuse(0, 0, Refusal::NoRows);
    Case::new(to, "1, 4, 5, 6", &[], outside).both_refuse(long, 16, Refusal::NoRows);
    let upon = Case::new(to, "3, 4, 5, 6", &damaged, outside);
    upon.both_refuse(long, 16, Refusal::NoExpansion);
    let upon = Case::new(to, "3, 6", &damaged, marked());
    upon.both_refuse(1, 16, Refusal::NoExpansion);
    on_m1(to, "4, 5, 6", outside).both_refuse(long, 16, Refusal::OutsideRows);
    let past = at(marked(), 0, 2);
    on_m1(to, "4, 6", past).both_refuse(1, 16, Refusal::OutsideRows);
    on_m1(to, "5, 6", most).keeps(Segment(1), 16, Err(Refusal::TooManyCycles));
    on_m1(to, "6, cycles 2^64 - 1", most).keeps(Padding(1), 16, Err(Refusal::Short));
}

// Padding writes the output into x10, where the segment after it finds it.
fn run_live_padding(to: Console) {
    let start = marked();
    let live = on_m1(to, "a live machine", start);
    let padded = live.writes(Padding(1), &[PAD0], with_reg(start, 10, 9));
    let first = [0, 0, 35, 5, 9, 10, 0, 94, 0, 0, 0, 1, 0, 5, 5, 0, ADD];
    let set = with_reg(with_reg(start, 10, 5), 32, 5);
    let end = halted(with_cycles(at(set, 1, 1), 5), 5);
    on_m1(to, "after padding", padded).writes(Segment(2), &[first, NEXT], end);
}

// jal x0,0: three live cycles, padded to four.
fn run_endless(to: Console) {
    let rows = [0x0000_006f];
    let record = [0, 0, 0, 0, 0, 32, 0, 0, 0, 0, 0, 0, 0, 0, 0, 0, 0];
    let latch = [0, 0, 0, 0, 0, 32, 0, 0, 0, 0, 0, 0, 0, 0, 0, 0, HLT];
    let start = fresh();
    let live = with_cycles(start, 3);
    let three = Case::new(to, "0x0000006f, 3 cycles", &rows, start);
    let after = three.writes(Segment(3), &[record; 3], live);
    let fourth = Case::new(to, "0x0000006f, the fourth", &rows, after);
    fourth.writes(Padding(1), &[latch], live);
}

// Stage `k` of M5, which leaves `value` in cell 0.
fn stage(k: u64, next: u64, value: u64) -> Record {
    [k, 1, 3, 0, 0, 32, 0, 0, 0, 0, 0, next, 1, 3, value, 0, 0]
}

// M5, and addi x5,x0,0 after it, which reads what the shift left in cell 0.
fn run_shift(to: Console) {
    let records = [
        stage(0, 1, 2),
        stage(1, 2, 8),
        stage(2, 3, 8),
        stage(3, 4, 8),
        stage(4, 5, 8),
        [5, 1, 3, 8, 0, 3, 0, 0, 0, 0, 0, 6, 1, 3, 8, 0, WE],
        [6, 8, 8, 8, 0, 5, 0, 0, 0, 0, 0, 0, 8, 0, 8, 0, ADD],
    ];
    let [s0, s1, s2, s3, s4, s5] = STAGES;
    let rows = [s0, s1, s2, s3, s4, s5, 0x293];
    let start = with_reg(with_reg(fresh(), 1, 1), 2, 3);
    let shifted = with_reg(with_reg(start, 3, 8), 0, 8);
    let end = with_cycles(with_reg(shifted, 5, 8), 7);
    let case = Case::new(to, "M5, and x0 read after it", &rows, start);
    case.writes(Segment(7), &records, end);
}

// jal x1,0 at row 2; jalr x1,0(x1) at row 0, which goes by x1 before the link is written.
fn run_jumps(to: Console) {
    let rows = [NOP, NOP, 0x0000_00ef];
    let start = at(with_reg(fresh(), 1, 99), 2, 0);
    let end = with_cycles(at(with_reg(start, 1, 12), 2, 2), 1);
    let record = [2, 0, 0, 12, 12, 1, 0, 0, 0, 0, 0, 2, 0, 0, 12, 0, WE];
    Case::new(to, "M10", &rows, start).writes(Segment(1), &[record], end);
    let rows = [0x0000_80e7, NOP, NOP];
    let start = with_reg(fresh(), 1, 8);
    let end = with_cycles(at(with_reg(start, 1, 4), 2, 2), 1);
    let record = [0, 8, 0, 4, 4, 1, 0, 0, 0, 0, 0, 2, 8, 0, 4, 0, WE];
    let case = Case::new(to, "jalr x1,0(x1) to row 2", &rows, start);
    case.writes(Segment(1), &[record], end);
}

// A branch at row 1 of 3, taken to row `target`.
fn run_branch(to: Console, name: &str, word: u64, target: usize) {
    let rows = [NOP, word, NOP];
    let start = at(fresh(), 1, 0);
    let end = with_cycles(at(start, target, target), 1);
    let next = target as u64;
    let record = [1, 0, 0, 0, 0, 32, 0, 0, 0, 0, 0, next, 0, 0, 0, 0, TAKEN];
    Case::new(to, name, &rows, start).writes(Segment(1), &[record], end);
}

fn main(rt: HostRuntime) {
    let to = Console::of(&rt);
    run_example(to);
    run_inside(to);
    run_outside(to);
    run_last_cycle(to);
    run_past_cycles(to);
    run_empty(to);
    run_room(to);
    run_lengths(to);
    run_products(to);
    run_damaged(to);
    run_several(to);
    run_live_padding(to);
    run_endless(to);
    run_shift(to);
    run_jumps(to);
    run_branch(to, "M6, a branch by -16", 0xfe00_08e3, 0);
    run_branch(to, "M7, a branch by -2", 0xfe00_0fe3, 1);
}
