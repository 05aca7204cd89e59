// Runs the sameness call, in both orders, on cursors that differ in given places.
use edges::{ECALL, PLACES, at, halted, marked, with_cycles, with_ram, with_reg};
use interp::{Cursor, Request, run_call};
use report::Console;
use std::ops::Range;

fn say_same(to: Console, want: bool, found: bool) {
    let wrong = if want == found { "" } else { ", WRONG" };
    let same = if found { ", same" } else { ", different" };
    to.say(format_args!("{wrong}{same}"));
}

// Console and name are parameters here and in the tests below, since each comparison has its own name.
fn compare(to: Console, name: &str, a: Cursor, b: Cursor, want: bool) {
    to.say(format_args!("sameness, {name}"));
    say_same(to, want, checkpoint::same_checkpoint(a, b));
    say_same(to, want, checkpoint::same_checkpoint(b, a));
    to.say("\n");
}

fn same(to: Console, name: &str, b: Cursor) {
    compare(to, name, marked(), b, true);
}

fn different(to: Console, name: &str, b: Cursor) {
    compare(to, name, marked(), b, false);
}

// What does not count.
fn run_same(to: Console) {
    let base = marked();
    same(to, "itself", base);
    same(to, "cycles", with_cycles(base, 4));
    same(
        to,
        "cycles by 2^63",
        with_cycles(base, 0x8000_0000_0000_0003),
    );
}

fn run_numbers(to: Console) {
    let base = marked();
    different(to, "micro_pc", at(base, 1, 0));
    different(to, "micro_pc by 2^32", at(base, 0x1_0000_0000, 0));
    different(to, "next_fetch", at(base, 0, 1));
    different(to, "next_fetch by 2^32", at(base, 0, 0x1_0000_0000));
    different(to, "halted", halted(base, 9));
    compare(to, "output", halted(base, 9), halted(base, 10), false);
}

fn run_several(to: Console) {
    let base = marked();
    different(to, "micro_pc and next_fetch", at(base, 1, 1));
    different(
        to,
        "cycles and register 63",
        with_reg(with_cycles(base, 4), 63, 7),
    );
    let exchanged = with_reg(with_reg(base, 1, 32), 2, 31);
    different(to, "registers 1 and 2 exchanged", exchanged);
    let far = with_reg(base, 1, 0x8000_0000_0000_001f);
    different(to, "register 1 by 2^63", far);
}

// ld x1,0(x0) and sd x0,0(x0), which take a word of the input and leave no trace of it in RAM; sll x1,x1,x2 with x2 = 0; ecall.
const SHIFT: [u64; 9] = [
    0x0000_3083,
    0x0000_3023,
    0x0_0020_90b3,
    0x1_0020_90b3,
    0x2_0020_90b3,
    0x3_0020_90b3,
    0x4_0020_90b3,
    0x5_0020_90b3,
    ECALL,
];

// Where a call from the cursor ends, with room for its records.
fn ended(cursor: Cursor, request: Request) -> Cursor {
    run_call(&SHIFT, cursor, request, &mut [0u64; PLACES]).cursor
}

// Before the last of the shift's six cycles, behind a padding cycle, which wrote 0 to x1: cell 0 alone still has the input's word.
fn inside_shift(word: u64) -> Cursor {
    ended(
        ended(Cursor::start(&[word]), Request::Segment(7)),
        Request::Padding(1),
    )
}

// The checkpoints of T-05's complaint, and that the runs go on differently.
fn run_inside_shift(to: Console) {
    let a = inside_shift(5);
    let b = inside_shift(9);
    compare(to, "inside a shift, cell 0 apart", a, b, false);
    compare(
        to,
        "inside a shift, cell 0 put right",
        a,
        with_reg(b, 0, 5),
        true,
    );
    let a_end = ended(a, Request::Segment(1));
    let b_end = ended(b, Request::Segment(1));
    to.say(format_args!(
        "after the shift x1 is {} and {}\n",
        a_end.regs[1], b_end.regs[1]
    ));
}

fn say_cell(to: Console, i: usize, a: Cursor, b: Cursor) {
    if checkpoint::same_checkpoint(a, b) {
        to.say(format_args!(", WRONG same at {i}"));
    }
}

// Each of these cells alone. The name says it whole.
fn run_each<F: Fn(usize) -> Cursor>(to: Console, name: &str, cells: Range<usize>, changed: F)
    requires { F.IsAlwaysCallable changed }
{
    to.say(name);
    for i in cells {
        let b = changed(i);
        say_cell(to, i, marked(), b);
        say_cell(to, i, b, marked());
    }
    to.say("\n");
}

pub fn run(to: Console) {
    run_same(to);
    run_numbers(to);
    run_several(to);
    run_inside_shift(to);
    // No marked cell is 7.
    let name = "sameness, each of registers 0 to 63 alone, different";
    run_each(to, name, 0..64, |i| with_reg(marked(), i, 7));
    let name = "sameness, each of RAM words 0 to 255 alone, different";
    run_each(to, name, 0..256, |i| with_ram(marked(), i, 7));
}
