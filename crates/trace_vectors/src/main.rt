// Replays lists of inputs of the program `trace`. The arguments name the files. Their lines:
//
//     i HEX   the bytes of an input, at most 4200, two lower-case digits each
//     o TEXT  a line that is printed for the input
//
// It says what is wrong in which line (lines count from 1, columns from 0), and ends each file with
// a line of totals. A case of which a line has another form is given up: its other lines are passed
// over.
#![tactic(auto)]

ghost use Rattle.std.specs.Prelude.{◌≤◌};

use arrayvec::ArrayVec;
use listing::hex_value;
use report::{Console, Counts, Report, one_more};
use std::fs::File;
use std::io;
use text_lines::{Replay, line_length};

// The most bytes of an input.
const MAX_CASE_BYTES: usize = 4200;

const TEXT: usize = lines::TEXT;

// The most bytes of a line of a list, with its line feed.
const MAX_LINE_BYTES: usize = 65536;

// The replay of a file.
#[derive(Drop)]
struct Run {
    // The bytes of the input.
    input: ArrayVec<u8, MAX_CASE_BYTES>,
    // What is printed for the input, first in its place, and how many bytes that is.
    text: [u8; TEXT],
    made: usize,
    // Where the next line of it begins; none, where the case is given up.
    next: Option<usize>,
    cases: u64,
    compared: u64,
}

// The byte that two digits give.
fn byte_of(digits: &[u8; 2]) -> Option<u8> {
    let [high, low] = digits;
    Some((hex_value(*high)? * 16 + hex_value(*low)?) as u8)
}

// Puts the bytes that the digits of an input line give into `bytes`. Faults are texts: they are only
// said, and no caller tells one from another.
fn put_bytes(digits: &[u8], bytes: &mut ArrayVec<u8, MAX_CASE_BYTES>) -> Result<(), &'static str> {
    if digits.len() > 2 * MAX_CASE_BYTES {
        return Err("more than 4200 bytes");
    }
    let (pairs, rest) = digits.as_chunks::<2>();
    if !rest.is_empty() {
        return Err("an odd number of digits");
    }
    bytes.clear();
    for pair in pairs {
        bytes.push(byte_of(pair).ok_or("not lower-case hexadecimal digits")?);
    }
    Ok(())
}

// The first column in which a stored line differs from the made one; column 2 is the first of both.
fn differs_at(stored: &[u8], made: &[u8]) -> Option<usize> {
    let same = stored.len().min(made.len());
    let other = stored.iter().zip(made).position(|(s, m)| s != m);
    let longer = (stored.len() != made.len()).then_some(same);
    Some(other.or(longer)? + 2)
}

// Says a line of the list, and its line feed in the same write. `N` is more than the line has.
fn say_fed<const N: usize>(to: Console, line: &[u8])
    requires { N ≤ 65536 }
{
    let mut whole = ArrayVec::<u8, N>::new();
    let _ = whole.try_extend_from_slice(line);
    let _ = whole.try_push(b'\n');
    to.say_bytes(&whole);
}

// Says a line of the list. It is copied to get its line feed into its write; to clear 65,536 bytes for
// each would take longer than the line.
fn say_stored(to: Console, line: &[u8]) {
    to.say("  stored  ");
    match line.len() {
        0..512 => say_fed::<512>(to, line),
        512..8192 => say_fed::<8192>(to, line),
        _ => say_fed::<MAX_LINE_BYTES>(to, line),
    }
}

// Says a line that is made.
fn say_made(to: Console, made: &[u8]) {
    to.say("  made    o ");
    to.say_bytes(made);
    to.say("\n");
}

impl Run {
    // Before the first case nothing is printed.
    fn new() -> Run {
        Run {
            input: ArrayVec::new(),
            text: [0; TEXT],
            made: 0,
            next: Some(0),
            cases: 0,
            compared: 0,
        }
    }

    // The next printed line, without its line feed; none, where the case is given up or has no further.
    fn next_made(&self) -> Option<&[u8]> {
        let left = self.text.get(self.next?..self.made)?;
        if left.is_empty() {
            return None;
        }
        Some(&left[..line_length(left)])
    }

    // A case ends where the next one begins or the file ends.
    fn end_case(&self, list: &mut Report<'_>, what: &str) {
        if let Some(made) = self.next_made() {
            list.wrong(what);
            say_made(list.to, made);
        }
    }

    // Takes the digits of an input, and makes what is printed for it. The place is cleared, so that no
    // text of an earlier case is left.
    fn input_line(&mut self, digits: &[u8], list: &mut Report<'_>) -> Result<(), &'static str> {
        self.end_case(list, "the case before ends early");
        put_bytes(digits, &mut self.input)?;
        self.text = [0; TEXT];
        self.made = trace_answer::answer(&self.input, &mut self.text);
        self.next = Some(0);
        self.cases = one_more(self.cases);
        Ok(())
    }

    // Compares a printed line, of which the text stored comes behind its letter. After one that differs the
    // next line is compared with the next one.
    fn printed_line(&mut self, line: &[u8], stored: &[u8], list: &mut Report<'_>) {
        let Some(next) = self.next else {
            list.counts.add_passed();
            return;
        };
        let Some(made) = self.next_made() else {
            list.wrong("no further line is made");
            return;
        };
        let with_feed = made.len().wrapping_add(1);
        match differs_at(stored, made) {
            None => list.counts.add_same(with_feed as u64),
            Some(at) => {
                list.differs(at);
                say_stored(list.to, line);
                say_made(list.to, made);
            }
        }
        self.next = Some(next.wrapping_add(with_feed));
        self.compared = one_more(self.compared);
    }
}

impl Replay for Run {
    fn take(&mut self, line: &[u8], list: &mut Report<'_>) {
        list.line();
        let taken = match line {
            [b'i', b' ', digits @ ..] => self.input_line(digits, list),
            [b'o', b' ', stored @ ..] => {
                self.printed_line(line, stored, list);
                Ok(())
            }
            _ => Err("neither an input nor a printed line"),
        };
        if let Err(what) = taken {
            list.wrong(what);
            self.next = None;
        }
    }

    fn end(&mut self, list: &mut Report<'_>) {
        self.end_case(list, "the case ends early");
    }
}

fn check_list(list: &mut Report<'_>, file: File) -> io::Result<()> {
    let mut run = Run::new();
    text_lines::each_line(file, list, &mut run)?;
    let Run {
        cases,
        compared,
        ..
    } = run;
    let Counts {
        characters,
        passed,
        wrong,
        ..
    } = list.counts;
    list.to.say_bytes(list.name);
    list.to.say(format_args!(
        ": {cases} cases, {compared} lines compared, {characters} characters compared, {passed} passed over, {wrong} wrong\n"
    ));
    Ok(())
}

fn main(rt: HostRuntime) {
    report::each_list(&rt, Console::of(&rt), "trace_vectors", check_list);
}
