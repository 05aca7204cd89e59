// Runs the expander at its limits. Each place of a buffer holds a guard word before a call; what the
// places hold afterwards is compared with what is expected, and what is seen is said.
#![tactic(auto)]

ghost use Rattle.std.specs.Prelude.{◌≤◌};

use edges::{SLL, STAGES};
use expand::{InstPos, VirtualKind};
use report::Console;
use std::array;

// No row word and no row position.
const GUARD: u64 = u64::MAX;

// addi x10,x0,5, the shift and ecall, and their rows.
const PROGRAM: [u32; 3] = [0x0050_0513, SLL, 0x0000_0073];

const ROWS: [u64; 8] = [
    0x0050_0513,
    STAGES[0],
    STAGES[1],
    STAGES[2],
    STAGES[3],
    STAGES[4],
    STAGES[5],
    0x0000_0073,
];

// Row words of the shift: its last stage, and upper halves of 6, 255, 256 and 2^32 - 1, which are no stage of it.
const SHIFTS: [u64; 5] = [
    STAGES[5],
    0x6_0020_91b3,
    0xff_0020_91b3,
    0x100_0020_91b3,
    0xffff_ffff_0020_91b3,
];

// A program, and the rows and starts that are expected of it. Where a run is said, and under which name,
// is no part of it: each of a case's runs has a name of its own.
#[derive(Clone, Copy)]
struct Case<'a> {
    program: &'a [u32],
    rows: &'a [u64],
    starts: &'a [u64],
}

fn is_kept(places: &[u64]) -> bool {
    places.iter().all(|place| *place == GUARD)
}

// Says what a buffer holds: the guard word in all places, or all of `want` and the guard word past it.
fn say_places(to: Console, name: &str, places: &[u64], want: &[u64]) {
    to.say(name);
    if is_kept(places) {
        to.say(" kept");
        return;
    }
    let Some(past) = places.strip_prefix(want) else {
        let mut pairs = places.iter().zip(want);
        let differs = pairs.position(|(found, want)| *found != *want);
        let at = differs.unwrap_or(places.len());
        to.say(format_args!(" wrong at place {at}"));
        return;
    };
    to.say(" written");
    if !is_kept(past) {
        to.say(", places past them not kept");
    } else if !past.is_empty() {
        let count = past.len();
        to.say(format_args!(" and {count} places past them kept"));
    }
}

impl Case<'_> {
    // A program that is refused.
    fn refused(program: &[u32]) -> Case<'_> {
        Case {
            program,
            rows: &[],
            starts: &[],
        }
    }

    // Expands the program into buffers, of which each place holds the guard word.
    fn run(self, to: Console, name: &str, rows: &mut [u64], starts: &mut [u64]) {
        to.say(format_args!("{name}: "));
        match expand::expand_program(self.program, rows, starts) {
            Ok(count) => to.say(format_args!("{count} rows")),
            Err(why) => {
                let number = u64::from(why);
                to.say(format_args!("refused {number}"));
            }
        }
        say_places(to, ", rows", rows, self.rows);
        say_places(to, ", starts", starts, self.starts);
        to.say("\n");
    }

    // Expands the program into `r` row places and `s` start places.
    fn run_lent(self, to: Console, name: &str, r: usize, s: usize)
        requires { (r ≤ 16) × (s ≤ 16) }
    {
        let mut rows = [GUARD; 16];
        let mut starts = [GUARD; 16];
        self.run(to, name, &mut rows[..r], &mut starts[..s]);
    }
}

// The check cannot unfold an array so long; behind a reference it need not.
fn run_words(to: Console, words: &[u32; 1048577]) {
    let all = &words[..];
    Case::refused(all).run_lent(to, "1048577 words, no buffers", 0, 0);
    let fewer = &words[..1048576];
    Case::refused(fewer).run_lent(to, "1048576 words, no buffers", 0, 0);
}

// The words are of no instruction, and take 4 MB of the stack.
fn run_longest(to: Console) {
    let words = [0u32; 1048577];
    run_words(to, &words);
}

fn run_none(to: Console) {
    let none = Case::refused(&[]);
    none.run_lent(to, "no words, no buffers", 0, 0);
    none.run_lent(to, "no words, 16 places each", 16, 16);
}

fn run_three(to: Console) {
    let three = Case {
        program: &PROGRAM,
        rows: &ROWS,
        starts: &[0, 1, 7],
    };
    three.run_lent(to, "3 words, exactly full", 8, 3);
    three.run_lent(to, "3 words, rows one short", 7, 3);
    three.run_lent(to, "3 words, no row places", 0, 3);
    three.run_lent(to, "3 words, starts one short", 8, 2);
    three.run_lent(to, "3 words, no start places", 8, 0);
    three.run_lent(to, "3 words, both larger by 3", 11, 6);
}

fn run_shift(to: Console) {
    let shift = Case {
        program: &[SLL],
        rows: &STAGES,
        starts: &[0],
    };
    shift.run_lent(to, "a shift, 6 row places", 6, 1);
    shift.run_lent(to, "a shift, 5 row places", 5, 1);
}

// Additions with 3,000 immediates, one row each.
fn run_plain(to: Console) {
    let program: [u32; 3000] = array::from_fn(|i| 0x13 + 0x10_0000 * i as u32);
    let want_rows = program.map(u64::from);
    let want_starts: [u64; 3000] = array::from_fn(|i| i as u64);
    let plain = Case {
        program: &program,
        rows: &want_rows,
        starts: &want_starts,
    };
    let mut rows = [GUARD; 3000];
    let mut starts = [GUARD; 3000];
    plain.run(to, "3000 words, exactly full", &mut rows, &mut starts);
}

fn say_test(to: Console, name: &str, rows: &[u64]) {
    let answer = if expand::is_expansion(rows) {
        ": an expansion\n"
    } else {
        ": no expansion\n"
    };
    to.say(format_args!("{name}{answer}"));
}

fn run_tests(to: Console) {
    let [s0, s1, s2, s3, s4, s5] = STAGES;
    say_test(to, "no rows", &[]);
    say_test(to, "the 8 rows", &ROWS);
    say_test(to, "stage 3 left out", &[s0, s1, s2, s4, s5]);
    say_test(to, "stage 2 repeated", &[s0, s1, s2, s2, s3, s4, s5]);
    say_test(to, "stages 2 and 3 swapped", &[s0, s1, s3, s2, s4, s5]);
    let first = [s0, s1 + 0x4000, s2, s3, s4, s5];
    say_test(to, "stage 1 of another shift", &first);
    let last = [s0, s1, s2, s3, s4, s5 + 0x4000];
    say_test(to, "stage 5 of another shift", &last);
    say_test(to, "stage 5 cut off", &[s0, s1, s2, s3, s4]);
    say_test(to, "stage 1 alone", &[s1]);
    say_test(to, "stage 1 of an addition", &[0x1_0050_0513]);
    let more = [s0, s1, s2, s3, s4, s5, 0x6_0020_91b3];
    say_test(to, "stage 6 after stage 5", &more);
}

// The starts that the expander gives for three words.
fn say_starts(to: Console) {
    let mut rows = [GUARD; 8];
    let mut starts = [GUARD; 3];
    let _ = expand::expand_program(&PROGRAM, &mut rows, &mut starts);
    for i in 0..4 {
        to.say(format_args!("instruction {i}"));
        match expand::inst_to_micro(&starts, InstPos(i)) {
            Some(at) => {
                let row = at.0;
                to.say(format_args!(": row {row}"));
            }
            None => to.say(": past the program"),
        }
        to.say("\n");
    }
}

fn say_row(to: Console, name: &str, word: u64) {
    to.say(name);
    to.say_bytes(&listing::row_line_of(word, 0));
}

// The stage that a row word of a register shift gives.
fn say_stage(to: Console, word: u64) {
    if let VirtualKind::ShiftStage { stage } = expand::rom_row(word).kind {
        let upper = word >> 32;
        to.say(format_args!("upper half {upper}: stage {stage}\n"));
    }
}

fn main(rt: HostRuntime) {
    let to = Console::of(&rt);
    run_none(to);
    run_longest(to);
    run_three(to);
    run_shift(to);
    run_plain(to);
    run_tests(to);
    say_starts(to);
    say_row(to, "row word 2^64 - 1: ", u64::MAX);
    say_row(to, "stage 9 of a shift: ", 0x9_0020_91b3);
    for word in SHIFTS {
        say_stage(to, word);
    }
}
