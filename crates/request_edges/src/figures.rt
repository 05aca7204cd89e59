// The run report (T-04). Each byte has a value of its own before a call, which no line has; afterwards all
// bytes are compared, those past the line and those that are not lent too. A refused call is to leave
// them as they were.
use edges::{first_of, number_of, say_list_bytes, say_wrong};
use report::Console;
use std::array;

// The most runs, the largest count, and the bytes that a test lends at most. A test has its own numbers.
const RUNS: usize = 65_536;

const MOST: u64 = 0x1_0000_0000;

const OVER: u64 = 0x1_0000_0001;

const ROOM: usize = 60;

// A text, and behind it what was lent.
fn written(text: &str) -> [u8; ROOM] {
    let mut line = array::from_fn(|i| 128 + i as u8);
    for (byte, character) in line.iter_mut().zip(text.as_bytes()) {
        *byte = *character;
    }
    line
}

// Makes the list runs of this count, of which the first `more` have one more.
fn set_runs(list: &mut [u64; 65_537], count: u32, more: usize) {
    for (i, place) in list.iter_mut().enumerate() {
        *place = u64::from(count) + u64::from(i < more);
    }
}

// Two lists, under which name they are said, and how many bytes are lent.
#[derive(Clone, Copy)]
struct Case<'a> {
    to: Console,
    name: &'a str,
    live: &'a [u64],
    records: &'a [u64],
    room: usize,
}

// A case of all bytes. A test has console and name as parameters up to here.
fn on<'a>(to: Console, name: &'a str, live: &'a [u64], records: &'a [u64]) -> Case<'a> {
    Case {
        to,
        name,
        live,
        records,
        room: ROOM,
    }
}

impl<'a> Case<'a> {
    fn lend(self, room: usize) -> Case<'a> {
        Case { room, ..self }
    }

    // The call is to answer this number and to write this text, which is said with its line feed.
    fn check(self, number: u64, text: &str) {
        let to = self.to;
        let name = self.name;
        let room = self.room;
        to.say(format_args!("report, {name}, room {room}"));
        let mut line = written("");
        let Some(part) = line.get_mut(..room) else {
            to.say(", WRONG room\n");
            return;
        };
        let outcome = run_report::report(self.live, self.records, part);
        let found = number_of(outcome);
        to.say(format_args!(": {found}"));
        say_wrong(to, b"number ", number, found);
        let length = outcome.unwrap_or(0);
        say_wrong(to, b"length ", text.len() as u64, length as u64);
        let want = written(text).map(u64::from);
        say_list_bytes(to, b"line ", &want, 0, &line.map(u64::from));
        if found != 0 {
            to.say("\n");
            return;
        }
        to.say(format_args!(", {length} bytes: "));
        to.say_bytes(first_of(&line, length));
    }

    fn writes(self, text: &str) {
        self.check(0, text);
    }

    fn refuses(self, number: u64) {
        self.check(number, "");
    }
}

fn run_figures(to: Console) {
    let one = [0, 0, 0, 0, 0, 1, 0, 0];
    on(to, "1 over 8 runs", &one, &[0; 8]).writes("8,1,0,13\n");
    let three = [1, 0, 0, 1, 0, 0, 0, 1];
    on(to, "3 over 8 runs", &three, &one).writes("8,3,1,38\n");
    on(to, "5 over 3 runs", &[1, 2, 2], &[2, 2, 2]).writes("3,5,6,167\n");
    on(to, "one run", &[7], &[1024]).writes("1,7,1024,700\n");
    on(to, "one run of 0", &[0], &[0]).writes("1,0,0,0\n");
    on(to, "one run of 2^32 and 0", &[MOST], &[0]).writes("1,4294967296,0,429496729600\n");
    on(to, "one run of 0 and 2^32", &[0], &[MOST]).writes("1,0,4294967296,0\n");
}

// The lines of means that are as near to a half as so many runs come: a float of 64 bits has both as a half.
const ABOVE: &str = "65533,281462091744218,65533,429496729502\n";

const BELOW: &str = "65533,281462091807785,65533,429496729598\n";

// How many runs, the count of each, how many have one more, and the line.
const MEANS: [(&str, usize, u32, usize, &str); 8] = [
    ("mean 0.5025", 199, 0, 1, "199,1,199,1\n"),
    ("mean 0.5", 200, 0, 1, "200,1,200,1\n"),
    ("mean 0.4975", 201, 0, 1, "201,1,201,0\n"),
    ("mean 12.4985", RUNS, 0, 8191, "65536,8191,65536,12\n"),
    ("mean 12.5", RUNS, 0, 8192, "65536,8192,65536,13\n"),
    ("mean 12.5015", RUNS, 0, 8193, "65536,8193,65536,13\n"),
    ("mean 429496729501.500008", 65_533, u32::MAX, 983, ABOVE),
    ("mean 429496729598.499992", 65_533, u32::MAX, 64_550, BELOW),
];

// Each run has one record.
fn run_means(to: Console) {
    let mut live = [0; 65_537];
    let records = [1; 65_537];
    for (name, runs, count, more, text) in MEANS {
        set_runs(&mut live, count, more);
        on(to, name, first_of(&live, runs), first_of(&records, runs)).writes(text);
    }
}

// These counts in live, in records and in both.
fn too_large(to: Console, name: &str, bad: &[u64; 3]) {
    let good = [MOST; 3];
    on(to, name, bad, &good).refuses(10);
    on(to, name, &good, bad).refuses(10);
    on(to, name, bad, bad).refuses(10);
}

fn run_counts(to: Console) {
    let good = [MOST; 3];
    on(to, "2^32 in all", &good, &good).writes("3,12884901888,12884901888,429496729600\n");
    too_large(to, "2^32 + 1 first", &[OVER, 0, 0]);
    too_large(to, "2^32 + 1 second", &[0, OVER, 0]);
    too_large(to, "2^32 + 1 last", &[0, 0, OVER]);
    too_large(to, "2^64 - 1 in all", &[u64::MAX; 3]);
}

fn run_lengths(to: Console) {
    let counts = [1, 2, 3];
    on(to, "no runs", &[], &[]).refuses(9);
    on(to, "0 and 1 runs", &[], &[1]).refuses(9);
    on(to, "1 and 0 runs", &[1], &[]).refuses(9);
    on(to, "2 and 3 runs", first_of(&counts, 2), &counts).refuses(9);
    on(to, "3 and 2 runs", &counts, first_of(&counts, 2)).refuses(9);
}

// The most runs, whose line has 51 bytes, and one more.
fn run_most(to: Console) {
    let over = [MOST; 65_537];
    let most = first_of(&over, RUNS);
    let text = "65536,281474976710656,281474976710656,429496729600\n";
    let longest = on(to, "65536 runs of 2^32", most, most);
    longest.writes(text);
    longest.lend(52).writes(text);
    longest.lend(51).writes(text);
    longest.lend(50).refuses(6);
    longest.lend(0).refuses(6);
    on(to, "65537 runs", &over, &over).refuses(9);
    on(to, "65536 and 65537 runs", most, &over).refuses(9);
    on(to, "65537 and 65536 runs", &over, most).refuses(9);
    let mut last = over;
    last[RUNS - 1] = OVER;
    let bad = first_of(&last, RUNS);
    on(to, "2^32 + 1 in the last of 65536", bad, most).refuses(10);
    on(to, "2^32 + 1 in the last of 65536", most, bad).refuses(10);
    on(to, "9 and 10, 65537 runs", &last, &last).refuses(9);
    on(to, "9, 10 and 6, 65537 runs", &last, &last)
        .lend(50)
        .refuses(9);
}

fn run_room(to: Console) {
    let case = on(to, "5 over 3 runs", &[1, 2, 2], &[2, 2, 2]);
    case.lend(11).writes("3,5,6,167\n");
    case.lend(10).writes("3,5,6,167\n");
    case.lend(9).refuses(6);
    case.lend(0).refuses(6);
}

// Several conditions at once, whose numbers are the name.
fn run_several(to: Console) {
    on(to, "9 and 10", &[OVER], &[]).refuses(9);
    on(to, "9 and 10", &[1], &[1, OVER]).refuses(9);
    on(to, "9 and 6", &[], &[]).lend(0).refuses(9);
    on(to, "9 and 6", &[1, 2], &[1]).lend(0).refuses(9);
    on(to, "10 and 6", &[OVER], &[1]).lend(0).refuses(10);
    on(to, "10 and 6", &[1], &[OVER]).lend(7).refuses(10);
    on(to, "9, 10 and 6", &[OVER], &[1, OVER])
        .lend(0)
        .refuses(9);
}

pub fn run(to: Console) {
    run_figures(to);
    run_means(to);
    run_counts(to);
    run_lengths(to);
    run_most(to);
    run_room(to);
    run_several(to);
}
