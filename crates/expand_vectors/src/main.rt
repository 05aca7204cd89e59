// Compares lists of expanded programs with the rows that the expander gives for their words. The
// arguments name the lists. A list has for each program a line with its counts, and then a line for
// each of its rows. It says which lines are wrong (lines count from 1, columns from 0), and ends each
// list with a line of totals.
#![tactic(auto)]

ghost use Rattle.std.specs.Prelude.{◌≤◌, length};

use arrayvec::ArrayVec;
use expand::{InstPos, MicroPc, Refusal, SHIFT_STAGES};
use listing::Head;
use report::{CUT, Console, Report};
use std::fs::File;
use std::{fmt, io};

// The most row lines of a program, and so the most words.
const MAX_ROWS: usize = 1365;

// The bytes of so many row lines.
const MAX_BYTES: usize = MAX_ROWS * 48;

// The rows that so many words can have.
const MAX_EXPANSION: usize = MAX_ROWS * SHIFT_STAGES as usize;

// No row word and no row position: what stands in a buffer before a call.
const GUARD: u64 = u64::MAX;

// What is wrong with a program as a whole.
#[derive(Clone, Copy)]
enum Fault {
    Words { announced: usize, found: usize },
    Rows { announced: usize, right: usize },
    Refused(Refusal),
    // In buffers that suffice.
    RefusedExact,
    NoExpansion,
    // In a larger buffer, than in one of the exact size.
    OtherRows,
    OtherStarts,
}

// A message about it, with its line feed. `writeln!` writes that as a piece of its own; the first
// message has it in its last piece.
impl fmt::Display for Fault {
    fn fmt<W: fmt::Write>(&self, f: &mut fmt::Formatter<W>) -> fmt::Result {
        match self {
            Fault::Words { announced, found } => {
                write!(f, "{announced} words announced, {found} found\n")
            }
            Fault::Rows { announced, right } => {
                writeln!(f, "{announced} rows announced, the expansion has {right}")
            }
            Fault::Refused(why) => {
                let number = u64::from(*why);
                writeln!(f, "refused {number}")
            }
            Fault::RefusedExact => writeln!(f, "buffers that suffice are refused"),
            Fault::NoExpansion => writeln!(f, "the rows are taken for no expansion"),
            Fault::OtherRows => writeln!(f, "a larger buffer holds other rows"),
            Fault::OtherStarts => writeln!(f, "a larger buffer holds other starts"),
        }
    }
}

// The words of a program, which its first rows name; none, where a line is no row line, or there are
// too many.
fn words_of(lines: &[[u8; 48]]) -> Option<ArrayVec<u32, MAX_ROWS>> {
    let mut words = ArrayVec::new();
    for line in lines {
        match listing::head_of(line) {
            Head::First(raw) => words.try_push(raw).ok()?,
            Head::Later => {}
            Head::NoLine => return None,
        }
    }
    Some(words)
}

// Says which lines of a program are no row lines, and that it is not expanded.
fn say_no_rows(list: &mut Report<'_>, lines: &[[u8; 48]]) {
    let first = list.counts.lines;
    for line in lines {
        list.line();
        if let Head::NoLine = listing::head_of(line) {
            list.wrong("not a row line");
        }
    }
    list.say_place(first);
    list.to.say("not expanded\n");
}

// Whether `wide` holds what `exact` holds, and past it what it held before. All words past it are
// looked at, which is quicker than to stop at the first that differs.
fn holds_only(wide: &[u64], exact: &[u64]) -> bool {
    let rest = wide.strip_prefix(exact);
    rest.is_some_and(|rest| rest.iter().fold(true, |same, word| same & (*word == GUARD)))
}

fn check_count(announced: usize, right: usize) -> Result<(), Fault> {
    if announced == right {
        Ok(())
    } else {
        Err(Fault::Rows { announced, right })
    }
}

// Expands a program, of so many words as is announced, into buffers of the exact size, and into larger
// ones, which have to agree.
fn expand_twice(
    announced: usize,
    words: &[u32],
    rows: &mut [u64],
    starts: &mut [u64],
) -> Result<(), Fault> {
    let found = words.len();
    if announced != found {
        return Err(Fault::Words { announced, found });
    }
    let mut wide_rows = [GUARD; MAX_EXPANSION];
    let mut wide_starts = [GUARD; MAX_EXPANSION];
    let wide = expand::expand_program(words, &mut wide_rows, &mut wide_starts);
    check_count(rows.len(), wide.map_err(Fault::Refused)?)?;
    let exact = expand::expand_program(words, rows, starts);
    check_count(rows.len(), exact.map_err(|_| Fault::RefusedExact)?)?;
    if !expand::is_expansion(rows) {
        return Err(Fault::NoExpansion);
    }
    if !holds_only(&wide_rows, rows) {
        return Err(Fault::OtherRows);
    }
    if !holds_only(&wide_starts, starts) {
        return Err(Fault::OtherStarts);
    }
    Ok(())
}

// Compares the next line of a program with its row.
fn check_row(list: &mut Report<'_>, line: &[u8; 48], word: u64, distance: usize) {
    list.line();
    match listing::compare_row(line, word, distance) {
        Ok(n) => list.counts.add_same(n as u64),
        Err(at) => {
            list.differs(at);
            list.to.say("  stored   ");
            list.to.say_bytes(line);
            list.to.say("  expanded ");
            list.to.say_bytes(&listing::row_line_of(word, distance));
        }
    }
}

// Compares the lines of a program with its rows.
fn check_rows(list: &mut Report<'_>, lines: &[[u8; 48]], rows: &[u64], starts: &[u64]) {
    let mut inst = 0;
    // No stored row has the distance 9, which is that of a row before the first start: a number and no
    // Option, since such a row's line is made and shown like any other.
    let mut distance: usize = 9;
    for (r, (line, word)) in lines.iter().zip(rows).enumerate() {
        if expand::inst_to_micro(starts, InstPos(inst)) == Some(MicroPc(r)) {
            inst += 1;
            distance = 0;
        } else {
            distance = (distance + 1).min(9);
        }
        check_row(list, line, *word, distance);
    }
}

// Checks the program of the last line that was taken, of so many words, by its row lines.
fn check_program(list: &mut Report<'_>, announced: usize, lines: &[[u8; 48]])
    requires { length lines.now ≤ 1365 }
{
    let Some(words) = words_of(lines) else {
        say_no_rows(list, lines);
        return;
    };
    let mut row_places = [GUARD; MAX_ROWS];
    let mut start_places = [GUARD; MAX_ROWS];
    let rows = &mut row_places[..lines.len()];
    let starts = &mut start_places[..words.len()];
    match expand_twice(announced, &words, rows, starts) {
        Ok(()) => check_rows(list, lines, rows, starts),
        Err(fault) => {
            list.wrong_fed(fault);
            list.counts.add_lines(lines.len() as u64);
        }
    }
}

// Takes the row lines of the program of the last line that was taken, checks it by them, and answers
// whether to go on. Nothing stands before the buffer here, so that it is cleared once.
fn take_rows(
    list: &mut Report<'_>,
    file: &mut File,
    announced: usize,
    rows: usize,
) -> io::Result<bool>
    requires { rows ≤ 1365 }
{
    let mut buffer = [0u8; MAX_BYTES];
    let bytes = &mut buffer[..rows * 48];
    if input::fill(file, bytes)? < bytes.len() {
        list.wrong(CUT);
        return Ok(false);
    }
    let (lines, _) = bytes.as_chunks::<48>();
    check_program(list, announced, lines);
    Ok(true)
}

// Takes the next program, and answers whether to go on.
fn take_program(list: &mut Report<'_>, file: &mut File) -> io::Result<bool> {
    let Some(line) = list.read_line(file)? else {
        return Ok(false);
    };
    let Some(sizes) = listing::program_counts(&line) else {
        list.wrong("not a program line");
        return Ok(false);
    };
    let rows = sizes.rows as usize;
    if MAX_ROWS < rows {
        // MAX_ROWS, in one piece: a number in it would be a write of its own.
        list.wrong("more than 1365 rows");
        return Ok(false);
    }
    take_rows(list, file, sizes.words as usize, rows)
}

// Checks the programs of a list. The bound is one that no list reaches.
fn check_list(list: &mut Report<'_>, mut file: File) -> io::Result<()> {
    for programs in 0..u64::MAX {
        if !take_program(list, &mut file)? {
            list.say_compared(format_args!("{programs} programs, "));
            break;
        }
    }
    Ok(())
}

fn main(rt: HostRuntime) {
    report::each_list(&rt, Console::of(&rt), "expand_vectors", check_list);
}
