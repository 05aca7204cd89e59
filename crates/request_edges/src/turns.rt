// The dispatcher (T-06). After each call all of its words are compared: a refused call and a turn that
// grants nothing are to leave them as they were, any other those that it is not to move.
use dispatch::{CALLERS, Caller, Dispatcher};
use edges::{number_of, say_list_bytes, say_wrong, with};
use report::Console;
use std::array;

// The most that a caller may want. A test has its own numbers.
const MOST: u64 = 0x1_0000_0000;

// What callers 0 to 15 want; the position is at 16, the budget at 17.
type Words = [u64; 18];

fn words_of(d: Dispatcher) -> Words {
    let wanted = array::from_fn(|i| d.callers.get(i).map_or(0, |caller| caller.wanted));
    with(with(wanted, 16, d.position as u64), 17, d.budget)
}

// A sum past 2^64 wraps, so that a word is lowered by this too.
fn raised(words: Words, i: usize, by: u64) -> Words {
    let word = words.get(i).copied().unwrap_or(0);
    with(words, i, word.wrapping_add(by))
}

// The words after this grant. Caller 16 and 0 cycles are nothing granted.
fn granted(words: Words, caller: usize, cycles: u64) -> Words {
    if CALLERS <= caller {
        return words;
    }
    let less = 0u64.wrapping_sub(cycles);
    let next = if caller == 15 { 0 } else { caller + 1 };
    let lowered = raised(raised(words, caller, less), 17, less);
    with(lowered, 16, next as u64)
}

// Nobody wants any.
fn none(position: u64, budget: u64) -> Words {
    with(with([0; 18], 16, position), 17, budget)
}

// Each wants a number of his own.
fn all(position: u64, budget: u64) -> Words {
    let wanted = array::from_fn(|i| 5000 + i as u64);
    with(with(wanted, 16, position), 17, budget)
}

// A dispatcher, and under which name it is said.
#[derive(Clone, Copy)]
struct Case<'a> {
    to: Console,
    name: &'a str,
    state: Dispatcher,
}

// A test has console and name as parameters up to here.
fn on<'a>(to: Console, name: &'a str, words: Words) -> Case<'a> {
    let state = Dispatcher {
        callers: array::from_fn(|i| Caller { wanted: words[i] }),
        position: words[16] as usize,
        budget: words[17],
    };
    Case { to, name, state }
}

fn fresh<'a>(to: Console, name: &'a str, budget: u64) -> Case<'a> {
    to.say(format_args!("dispatch, {name}, start {budget}"));
    let state = Dispatcher::start(budget);
    Case { to, name, state }.left(0, 0, none(0, budget), state)
}

impl<'a> Case<'a> {
    // The end of a call's line: whether it answered this number and left these words. The next call gets
    // what it left.
    fn left(self, number: u64, found: u64, want: Words, state: Dispatcher) -> Case<'a> {
        say_wrong(self.to, b"number ", number, found);
        say_list_bytes(self.to, b"words ", &want, 0, &words_of(state));
        self.to.say("\n");
        Case { state, ..self }
    }

    fn add(self, number: u64, caller: usize, cycles: u64) -> Case<'a> {
        let name = self.name;
        let answer = self.state.add(caller, cycles);
        let found = number_of(answer.outcome);
        self.to.say(format_args!("dispatch, {name}, add {caller} {cycles}: {found}"));
        let more = if number == 0 { cycles } else { 0 };
        let want = raised(words_of(self.state), caller, more);
        self.left(number, found, want, answer.dispatcher)
    }

    fn turn(self, number: u64, caller: usize, cycles: u64) -> Case<'a> {
        let to = self.to;
        let name = self.name;
        let answer = self.state.turn();
        let found = number_of(answer.outcome);
        let (by, slice) = match answer.outcome {
            Ok(Some(grant)) => (grant.caller as u64, grant.cycles),
            _ => (16, 0),
        };
        to.say(format_args!("dispatch, {name}, turn: {found}, caller {by}, {slice} cycles"));
        say_wrong(to, b"caller ", caller as u64, by);
        say_wrong(to, b"cycles ", cycles, slice);
        let want = granted(words_of(self.state), caller, cycles);
        self.left(number, found, want, answer.dispatcher)
    }

    // The turns are to grant these slices in this order, and then nothing.
    fn grants(self, slices: &[(usize, u64)]) -> Case<'a> {
        let mut case = self;
        for (caller, cycles) in slices {
            case = case.turn(0, *caller, *cycles);
        }
        case.turn(0, 16, 0)
    }
}

fn run_lists(to: Console) {
    let two = fresh(to, "callers 3 and 9", 10_000).add(0, 3, 5000);
    two.add(0, 9, 1).grants(&[(3, 4096), (9, 1), (3, 904)]);
    let each: [(usize, u64); CALLERS] = array::from_fn(|i| (i, 1 + i as u64));
    let start = fresh(to, "all sixteen", 1_000_000);
    let added = (0..CALLERS).fold(start, |case, i| case.add(0, i, 1 + i as u64));
    added.grants(&each);
    let start = on(to, "all sixteen from 11", all(11, 70_000));
    let turned = (0..CALLERS).fold(start, |case, i| case.turn(0, (11 + i) % 16, 4096));
    turned.grants(&[(11, 915), (12, 916), (13, 917), (14, 918), (15, 798)]);
    on(to, "15 to 0", all(15, 5000)).grants(&[(15, 4096), (0, 904)]);
    let one = on(to, "one only", with(none(8, 10_000), 7, 8193));
    one.grants(&[(7, 4096), (7, 4096), (7, 1)]);
    on(to, "nobody", none(7, 5)).grants(&[]);
}

// How much caller 4 wants, the budget, and the slices that are granted.
const SLICES: [(&str, u64, u64, &[(usize, u64)]); 10] = [
    ("wanted 4095", 4095, 9000, &[(4, 4095)]),
    ("wanted 4096", 4096, 9000, &[(4, 4096)]),
    ("wanted 4097", 4097, 9000, &[(4, 4096), (4, 1)]),
    ("wanted 2^64 - 1", u64::MAX, 5000, &[(4, 4096), (4, 904)]),
    ("budget 0", 5000, 0, &[]),
    ("budget 4095", 5000, 4095, &[(4, 4095)]),
    ("budget 4096", 5000, 4096, &[(4, 4096)]),
    ("budget 4097", 5000, 4097, &[(4, 4096), (4, 1)]),
    ("budget 4099", 5000, 4099, &[(4, 4096), (4, 3)]),
    ("budget 2^64 - 1", 5000, u64::MAX, &[(4, 4096), (4, 904)]),
];

// How much caller 6 wants, how much he adds, and the number of the answer.
const ADDS: [(&str, u64, u64, u64); 9] = [
    ("wanted 0", 0, MOST, 0),
    ("wanted 0", 0, MOST + 1, 12),
    ("wanted 1", 1, u64::MAX, 12),
    ("wanted 2^32 - 1", MOST - 1, 1, 0),
    ("wanted 2^32 - 1", MOST - 1, 2, 12),
    ("wanted 2^32", MOST, 0, 0),
    ("wanted 2^32", MOST, 1, 12),
    ("wanted 2^64 - 1", u64::MAX, 0, 12),
    ("wanted 2^64 - 1", u64::MAX, u64::MAX, 12),
];

fn run_amounts(to: Console) {
    for (name, wanted, budget, slices) in SLICES {
        on(to, name, with(none(0, budget), 4, wanted)).grants(slices);
    }
    for (name, wanted, cycles, number) in ADDS {
        on(to, name, with(all(9, 77), 6, wanted)).add(number, 6, cycles);
    }
}

// Caller and position 15, and those above. 11 is tested before 12.
fn run_outside(to: Console) {
    let last = on(to, "position 15", all(15, 0)).add(0, 15, 1);
    for outside in [16, 0x1_0000_0000, u64::MAX] {
        last.add(11, outside as usize, 1);
        let bad = on(to, "position 16 or above", all(outside, 9000));
        bad.add(11, 15, 1).turn(11, 16, 0);
    }
    on(to, "position 16, budget 0", none(16, 0)).turn(11, 16, 0);
    last.add(11, 16, u64::MAX);
    let both = on(to, "position 16, wanted 2^32", with(all(16, 77), 3, MOST));
    both.add(11, 3, 1).add(11, 16, u64::MAX);
}

pub fn run(to: Console) {
    run_lists(to);
    run_amounts(to);
    run_outside(to);
}
