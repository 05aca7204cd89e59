// Runs execute and compares all that it returns and writes. Each place of a record buffer holds a
// guard word before a call; afterwards all places, the counts and the whole cursor are compared.
use edges::{GUARD, NUMBER_NAMES, PLACES, Record, fresh, number_of, numbers_of, say_list_bytes};
use interp::{Execution, Refusal};
use report::Console;

// max_cycles, and how many words are lent: a pair, since names in each row of the tables of lengths
// would hide the numbers.
pub type Length = (u64, usize);

// What is said in place of an execution that is refused, which hands back neither counts nor a cursor.
fn nothing() -> Execution {
    Execution {
        live_count: 0,
        record_count: 0,
        cursor: fresh(),
    }
}

fn say_number(to: Console, what: &str, want: u64, found: u64) {
    let wrong = if want == found { "" } else { "WRONG " };
    to.say(format_args!(", {wrong}{what}{found}"));
}

fn say_execution(to: Console, want: Execution, found: Execution) {
    say_number(to, "live ", want.live_count, found.live_count);
    say_number(to, "records ", want.record_count, found.record_count);
    let want = want.cursor;
    let found = found.cursor;
    let numbers = numbers_of(want).into_iter().zip(numbers_of(found));
    for (what, (want, found)) in NUMBER_NAMES.iter().zip(numbers) {
        say_number(to, what, want, found);
    }
    say_list_bytes(to, b"registers ", &want.regs, 0, &found.regs);
    say_list_bytes(to, b"RAM ", &want.ram, 0, &found.ram);
}

// What execute runs on, and under which name that is said.
#[derive(Clone, Copy)]
pub struct Case<'a> {
    to: Console,
    name: &'a str,
    rows: &'a [u64],
    input: &'a [u64],
}

impl<'a> Case<'a> {
    pub fn new(to: Console, name: &'a str, rows: &'a [u64], input: &'a [u64]) -> Case<'a> {
        Case {
            to,
            name,
            rows,
            input,
        }
    }

    // Runs execute, which is lent the first `room` places of a buffer, of which these records are to be
    // the first words.
    fn check(self, length: Length, want: Result<Execution, Refusal>, records: &[Record]) {
        let (max_cycles, room) = length;
        let to = self.to;
        let name = self.name;
        let input = self.input.len();
        to.say(format_args!("{name}, input {input}, max {max_cycles}, {room} words"));
        let mut places = [GUARD; PLACES];
        let Some(lent) = places.get_mut(..room) else {
            to.say(", WRONG room\n");
            return;
        };
        let found = interp::execute(self.rows, self.input, max_cycles, lent);
        say_number(to, "number ", number_of(want), number_of(found));
        say_execution(to, want.unwrap_or(nothing()), found.unwrap_or(nothing()));
        say_list_bytes(to, b"buffer ", records.as_flattened(), GUARD, &places);
        to.say("\n");
    }

    // Calls that give the same answer.
    fn check_each(self, lengths: &[Length], want: Result<Execution, Refusal>, records: &[Record]) {
        for length in lengths {
            self.check(*length, want, records);
        }
    }

    pub fn runs(self, lengths: &[Length], want: Execution, records: &[Record]) {
        self.check_each(lengths, Ok(want), records);
    }

    // Refused calls leave the whole buffer as it was.
    pub fn refuses(self, lengths: &[Length], why: Refusal) {
        self.check_each(lengths, Err(why), &[]);
    }
}
