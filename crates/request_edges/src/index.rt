// The last-writer index (T-02). Each place of an index has a number of its own before a call; afterwards
// all places are compared, those past the index too. A refused call is to leave them as they were.
use edges::{Record, first_of, fresh, number_of, say_list_bytes, say_wrong, with};
use interp::Cursor;
use interp::Request::{self, Padding, Segment};
use report::Console;
use std::array;

// What a place holds that no record wrote, the most records, and the places that a test lends at most. A
// test has its own numbers.
const NONE: u64 = 0xffff_ffff_ffff_ffff;

const MOST: u64 = 0x4000_0000_0000_0000;

const ROOM: usize = 330;

type Index = [u64; ROOM];

// No place of it is a position that a test expects.
fn lent() -> Index {
    array::from_fn(|i| 5000 + i as u64)
}

// The index of no record, and past it what was lent.
fn blank() -> Index {
    let mut index = lent();
    for place in index.iter_mut().take(320) {
        *place = NONE;
    }
    index
}

// An index with the positions of these records at these places.
fn entered(index: Index, before: u64, cells: &[(usize, u64)]) -> Index {
    cells.iter().fold(index, |index, (place, i)| {
        with(index, *place, before.wrapping_add(*i))
    })
}

// A record that writes this register and shows this RAM word. All its other bits are set but is_store.
fn plain(rd: u64, word: u64) -> Record {
    let shown = with(with([u64::MAX; 17], 5, rd), 6, word);
    with(shown, 16, 0xffff_ffff_ff7f_ffff)
}

// The same as a store, of word 16 with is_store alone.
fn store(rd: u64, word: u64) -> Record {
    with(plain(rd, word), 16, 0x0080_0000)
}

// A log, under which name it is said, and how many places are lent.
#[derive(Clone, Copy)]
struct Case<'a> {
    to: Console,
    name: &'a str,
    log: &'a [u64],
    room: usize,
}

// A case of the first words of these records. A test has console and name as parameters up to here.
fn lend<'a>(to: Console, name: &'a str, log: &'a [Record], words: usize, room: usize) -> Case<'a> {
    Case {
        to,
        name,
        log: first_of(log.as_flattened(), words),
        room,
    }
}

// A case of all words and places.
fn on<'a>(to: Console, name: &'a str, log: &'a [Record]) -> Case<'a> {
    lend(to, name, log, usize::MAX, ROOM)
}

impl Case<'_> {
    // Adds the log behind so many records, or builds its index where that is none. The call is to answer
    // this number and to leave this index.
    fn check(self, before: Option<u64>, number: u64, want: Index) {
        let to = self.to;
        let name = self.name;
        let kind = if before.is_some() { "add" } else { "build" };
        to.say(format_args!("{kind}, {name}"));
        let mut index = lent();
        let Some(part) = index.get_mut(..self.room) else {
            to.say(", WRONG room\n");
            return;
        };
        let outcome = match before {
            Some(before) => last_writer::add(self.log, before, part),
            None => last_writer::build(self.log, part),
        };
        let found = number_of(outcome);
        to.say(format_args!(": {found}"));
        say_wrong(to, b"number ", number, found);
        say_list_bytes(to, b"index ", &want, NONE, &index);
        to.say("\n");
    }

    fn adds(self, before: u64, cells: &[(usize, u64)]) {
        self.check(Some(before), 0, entered(lent(), before, cells));
    }

    fn refuses(self, before: Option<u64>, number: u64) {
        self.check(before, number, lent());
    }

    fn both_accept(self, cells: &[(usize, u64)]) {
        self.check(None, 0, entered(blank(), 0, cells));
        self.adds(1000, cells);
    }

    fn both_refuse(self, number: u64) {
        self.refuses(None, number);
        self.refuses(Some(1000), number);
    }
}

// RAM word 7 is at place 71.
fn run_latest(to: Console) {
    on(to, "no records", &[]).both_accept(&[]);
    on(to, "one record", &[plain(5, 0)]).both_accept(&[(5, 0)]);
    let three = [plain(5, 0), plain(6, 0), plain(5, 0)];
    on(to, "the latest of three", &three).both_accept(&[(6, 1), (5, 2)]);
    let load_last = [store(32, 7), plain(5, 7)];
    on(to, "a load last", &load_last).both_accept(&[(32, 0), (71, 0), (5, 1)]);
    let store_last = [plain(5, 7), store(32, 7)];
    on(to, "a store last", &store_last).both_accept(&[(5, 0), (32, 1), (71, 1)]);
}

fn run_ends(to: Console) {
    let registers = [plain(0, 255), plain(32, 255), plain(63, 0)];
    on(to, "registers 0, 32 and 63", &registers).both_accept(&[(0, 0), (32, 1), (63, 2)]);
    let words = [store(63, 0), store(0, 255)];
    on(to, "RAM words 0 and 255", &words).both_accept(&[(63, 0), (64, 0), (0, 1), (319, 1)]);
}

// This record before a good one, and behind it.
fn out_of_range(to: Console, name: &str, bad: Record) {
    let good = store(5, 7);
    on(to, name, &[bad, good]).both_refuse(8);
    on(to, name, &[good, bad]).both_refuse(8);
}

fn run_out_of_range(to: Console) {
    out_of_range(to, "register 64", plain(64, 0));
    out_of_range(to, "register 64, a store", store(64, 0));
    out_of_range(to, "RAM word 256", plain(0, 256));
    out_of_range(to, "RAM word 256, a store", store(0, 256));
    out_of_range(to, "register 2^32", plain(0x1_0000_0000, 0));
    out_of_range(to, "RAM word 2^64 - 1", store(0, u64::MAX));
}

fn run_partial(to: Console) {
    let three = [plain(5, 0), plain(6, 0), plain(5, 0)];
    lend(to, "1 word", &three, 1, ROOM).both_refuse(7);
    lend(to, "33 words", &three, 33, ROOM).both_refuse(7);
    lend(to, "34 words", &three, 34, ROOM).both_accept(&[(5, 0), (6, 1)]);
    lend(to, "35 words", &three, 35, ROOM).both_refuse(7);
}

// So many records before, and in the log.
fn run_most(to: Console) {
    let two = [plain(5, 0), store(6, 0)];
    on(to, "2^62 - 2 and 2", &two).adds(MOST - 2, &[(5, 0), (6, 1), (64, 1)]);
    on(to, "2^62 - 1 and 2", &two).refuses(Some(MOST - 1), 5);
    on(to, "2^62 and 0", &[]).adds(MOST, &[]);
    on(to, "2^62 + 1 and 0", &[]).refuses(Some(MOST + 1), 5);
    on(to, "2^64 - 1 and 0", &[]).refuses(Some(u64::MAX), 5);
    on(to, "2^64 - 1 and 2", &two).refuses(Some(u64::MAX), 5);
}

fn run_room(to: Console) {
    let two = [plain(5, 0), store(6, 255)];
    let cells = [(5, 0), (6, 1), (319, 1)];
    lend(to, "no places", &two, 34, 0).both_refuse(6);
    lend(to, "319 places", &two, 34, 319).both_refuse(6);
    lend(to, "320 places", &two, 34, 320).both_accept(&cells);
    lend(to, "321 places", &two, 34, 321).both_accept(&cells);
    lend(to, "no records, 319 places", &two, 0, 319).both_refuse(6);
}

// Several conditions at once, whose numbers are the name; 5 is none of build's.
fn run_several(to: Console) {
    let over = Some(u64::MAX);
    let good = [plain(5, 0); 2];
    let bad = [plain(64, 0); 2];
    lend(to, "7, 8", &bad, 33, ROOM).both_refuse(7);
    lend(to, "7, 5", &good, 33, ROOM).refuses(over, 7);
    lend(to, "7, 6", &good, 33, 319).both_refuse(7);
    lend(to, "8, 5", &bad, 34, ROOM).refuses(over, 8);
    lend(to, "8, 6", &bad, 34, 319).both_refuse(8);
    lend(to, "5, 6", &good, 34, 319).refuses(over, 5);
    lend(to, "7, 8, 5, 6", &bad, 33, 319).refuses(over, 7);
    lend(to, "8, 5, 6", &bad, 34, 319).refuses(over, 8);
}

// addi x1,x1,1; sd x1,8(x0); ld x2,8(x0); jal x0,.-12
const ROWS: [u64; 4] = [0x0010_8093, 0x0010_3423, 0x0080_3103, 0xff5f_f06f];

// Runs a call, which writes these records, and adds them to an index. Answers the cursor.
fn follow(
    to: Console,
    cursor: Cursor,
    request: Request,
    records: &mut [Record],
    before: u64,
    index: &mut Index,
) -> Cursor {
    let part = records.as_flattened_mut();
    let answer = interp::run_call(&ROWS, cursor, request, part);
    say_wrong(to, b"call ", 0, number_of(answer.outcome));
    let added = last_writer::add(part, before, index);
    say_wrong(to, b"add ", 0, number_of(added));
    answer.cursor
}

// A live machine is padded at its addition, twice: that writes 0 to x1. The input is empty and no row is
// of a register shift, so that RAM that is not stored to and cell 0 are 0 too.
fn run_calls(to: Console) {
    to.say("add, four calls");
    let mut log = [[0u64; 17]; 10];
    let mut index = blank();
    let (a, rest) = log.split_at_mut(4);
    let (b, rest) = rest.split_at_mut(1);
    let (c, d) = rest.split_at_mut(4);
    let cursor = follow(to, fresh(), Segment(4), a, 0, &mut index);
    let cursor = follow(to, cursor, Padding(1), b, 4, &mut index);
    let cursor = follow(to, cursor, Segment(4), c, 5, &mut index);
    let cursor = follow(to, cursor, Padding(1), d, 9, &mut index);
    let cells = [(65, 6), (2, 7), (32, 8), (1, 9)];
    say_list_bytes(to, b"index ", &entered(blank(), 0, &cells), NONE, &index);
    let regs: [u64; 64] = array::from_fn(|x| log.get(index[x] as usize).map_or(0, |r| r[3]));
    say_list_bytes(to, b"registers ", &regs, 0, &cursor.regs);
    let ram: [u64; 256] = array::from_fn(|x| log.get(index[64 + x] as usize).map_or(0, |r| r[9]));
    say_list_bytes(to, b"RAM ", &ram, 0, &cursor.ram);
    to.say("\n");
    on(to, "four calls", &log).check(None, 0, entered(blank(), 0, &cells));
}

pub fn run(to: Console) {
    run_latest(to);
    run_ends(to);
    run_out_of_range(to);
    run_partial(to);
    run_most(to);
    run_room(to);
    run_several(to);
    run_calls(to);
}
