// Runs a call and compares what it returns and writes. Each place of a record buffer holds a guard
// word before a call; afterwards all places and the whole cursor are compared.
use edges::{GUARD, NUMBER_NAMES, PLACES, Record, number_of, numbers_of, say_differs, say_wrong};
use interp::{Answer, Cursor, Refusal, Request};
use report::Console;

// Says what of a cursor is not as wanted, and answers whether all is.
fn say_cursor(to: Console, want: Cursor, found: Cursor) -> bool {
    let mut right = say_differs(to, b"register ", &want.regs, 0, &found.regs);
    right &= say_differs(to, b"RAM word ", &want.ram, 0, &found.ram);
    let numbers = numbers_of(want).into_iter().zip(numbers_of(found));
    for (what, (want, found)) in NUMBER_NAMES.iter().zip(numbers) {
        right &= say_wrong(to, what.as_bytes(), want, found);
    }
    right
}

// Where calls start: on which rows, with which cursor, and under which name they are said.
#[derive(Clone, Copy)]
pub struct Case<'a> {
    to: Console,
    name: &'a str,
    rows: &'a [u64],
    cursor: Cursor,
}

impl<'a> Case<'a> {
    pub fn new(to: Console, name: &'a str, rows: &'a [u64], cursor: Cursor) -> Case<'a> {
        Case {
            to,
            name,
            rows,
            cursor,
        }
    }

    // Runs a call that is lent the first `room` places of a buffer, of which these records are to be
    // the first words. Answers the cursor that it returns.
    fn check(self, request: Request, room: usize, want: Answer, records: &[Record]) -> Cursor {
        let to = self.to;
        let name = self.name;
        let kind = match request {
            Request::Segment(_) => "segment, ",
            Request::Padding(_) => "padding, ",
        };
        let mut places = [GUARD; PLACES];
        let Some(lent) = places.get_mut(..room) else {
            to.say(format_args!("{kind}{name}: WRONG room\n"));
            return self.cursor;
        };
        let found = interp::run_call(self.rows, self.cursor, request, lent);
        let number = number_of(found.outcome);
        to.say(format_args!("{kind}{name}: {number}"));
        say_wrong(to, b"number ", number_of(want.outcome), number);
        let buffer = say_differs(to, b"place ", records.as_flattened(), GUARD, &places);
        let cursor = say_cursor(to, want.cursor, found.cursor);
        // A refused call keeps what an accepted one changes.
        let right = if want.outcome.is_ok() {
            " right"
        } else {
            " kept"
        };
        if buffer {
            to.say(format_args!(", buffer{right}"));
        }
        if cursor {
            to.say(format_args!(", cursor{right}"));
        }
        to.say("\n");
        found.cursor
    }

    // A call that is lent exactly the words of its records, is accepted, and returns this cursor.
    pub fn writes(self, request: Request, records: &[Record], cursor: Cursor) -> Cursor {
        let want = Answer {
            outcome: Ok(()),
            cursor,
        };
        self.check(request, records.as_flattened().len(), want, records)
    }

    // A call that keeps the cursor and the buffer: it is refused, or has length 0.
    pub fn keeps(self, request: Request, room: usize, outcome: Result<(), Refusal>) {
        let want = Answer {
            outcome,
            cursor: self.cursor,
        };
        self.check(request, room, want, &[]);
    }

    // Both calls of so many cycles, refused for the same reason.
    pub fn both_refuse(self, n: u64, room: usize, why: Refusal) {
        self.keeps(Request::Segment(n), room, Err(why));
        self.keeps(Request::Padding(n), room, Err(why));
    }
}
