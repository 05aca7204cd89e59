// The replay of a file.
use crate::cells::{Place, start_cells};
use arrayvec::ArrayVec;
use calls::{Line, place_of};
use edges::{Cells, GUARD, NUMBER_NAMES, cells_of, number_of, numbers_of};
use interp::{Answer, Cursor, RECORD_WORDS, Request};
use report::{Report, one_more};
use std::fmt::Display;
use std::mem;
use text_lines::Replay;

// The most words of a program, its rows, and the words of an input.
const MAX_WORDS: usize = 256;

const MAX_ROWS: usize = 1024;

const MAX_INPUT: usize = 512;

// The most records of a call, the words that are lent to it, and the places that there are.
const MAX_RECORDS: usize = 512;

const MAX_ROOM: u64 = 8744;

const PLACES: usize = 8761;

// What the next line is to be.
#[derive(Clone, Copy)]
enum Phase {
    // A list: nothing stands before the first.
    First,
    // A list: the one before is given up, and its lines are passed over.
    List,
    // A word of the program, of `words`, before `inputs` words of input.
    Word { words: u64, inputs: u64 },
    // A word of the input, of so many.
    Input(u64),
    // A call or a list.
    Call,
    // Record `at` of a call, of so many.
    Record { at: usize, count: u64 },
    // The cursor after a call.
    Cursor,
    // A cell at this place or a later one, a call or a list.
    Cell(usize),
}

// Why the list that a line stands in cannot be run on. A text is enough: it is only said, and no caller
// tells one from another.
type Fault = &'static str;

#[derive(Drop)]
pub struct Run {
    phase: Phase,
    program: ArrayVec<u32, MAX_WORDS>,
    input: ArrayVec<u64, MAX_INPUT>,
    rows: ArrayVec<u64, MAX_ROWS>,
    // What records are written to: a call is lent the first of them.
    places: [u64; PLACES],
    // The cursor that was returned, and the cells that it is to have.
    cursor: Cursor,
    want: Cells,
    // How many there were.
    lists: u64,
    calls: u64,
    records: u64,
}

// Says so where a value is not the expected one, and answers whether it is.
fn compare<D: Display + Drop>(list: &mut Report<'_>, what: D, want: u64, found: u64) -> bool {
    if want != found {
        list.wrong(format_args!("{what}: expected {want:#x}, found {found:#x}"));
    }
    want == found
}

// Runs a call that is lent the first `room` places.
fn run_call(
    rows: &[u64],
    cursor: Cursor,
    request: Request,
    room: u64,
    places: &mut [u64; PLACES],
) -> Result<Answer, Fault> {
    if room > MAX_ROOM {
        return Err("more than 8744 words lent");
    }
    *places = [GUARD; PLACES];
    let records = &mut places[..room as usize];
    Ok(interp::run_call(rows, cursor, request, records))
}

impl Run {
    pub fn new() -> Run {
        Run {
            phase: Phase::First,
            program: ArrayVec::new(),
            input: ArrayVec::new(),
            rows: ArrayVec::new(),
            places: [GUARD; PLACES],
            cursor: Cursor::start(&[]),
            want: start_cells(&[]),
            lists: 0,
            calls: 0,
            records: 0,
        }
    }

    pub fn say_total(&self, list: &Report<'_>) {
        let (lists, calls, records) = (self.lists, self.calls, self.records);
        list.say_replayed(format_args!("{lists} lists, {calls} calls, {records} records, "));
    }

    // Goes on to the next of so many words of input, or starts the fresh machine behind the last. Its
    // cells are compared after the first call.
    fn load(&mut self, inputs: u64) {
        if (self.input.len() as u64) < inputs {
            self.phase = Phase::Input(inputs);
            return;
        }
        self.cursor = Cursor::start(&self.input);
        self.want = start_cells(&self.input);
        self.phase = Phase::Call;
    }

    fn take_list(&mut self, line: &Line) -> Result<(), Fault> {
        let (b'l', Some([words, inputs])) = (line.letter, line.values()) else {
            return Err("not a list line");
        };
        self.lists = one_more(self.lists);
        self.program.clear();
        self.input.clear();
        self.rows.clear();
        if *words == 0 {
            self.load(*inputs);
        } else {
            self.phase = Phase::Word {
                words: *words,
                inputs: *inputs,
            };
        }
        Ok(())
    }

    fn expand(&mut self) -> Result<(), Fault> {
        let mut rows = ArrayVec::from([0u64; MAX_ROWS]);
        let mut starts = [0u64; MAX_WORDS];
        let made = expand::expand_program(&self.program, rows.as_mut_slice(), &mut starts);
        rows.truncate(made.map_err(|_| "the program is not expanded")?);
        self.rows = rows;
        Ok(())
    }

    // Takes a word of the program, and expands it after the last one.
    fn take_word(&mut self, line: &Line, words: u64, inputs: u64) -> Result<(), Fault> {
        let (b'w', Some([word])) = (line.letter, line.values()) else {
            return Err("not a word line");
        };
        let word = u32::try_from(*word).map_err(|_| "a word of more than 32 bits")?;
        self.program
            .try_push(word)
            .map_err(|_| "more than 256 words")?;
        if self.program.len() as u64 == words {
            self.expand()?;
            self.load(inputs);
        }
        Ok(())
    }

    fn take_input(&mut self, line: &Line, inputs: u64) -> Result<(), Fault> {
        let (b'i', Some([word])) = (line.letter, line.values()) else {
            return Err("not an input line");
        };
        self.input
            .try_push(*word)
            .map_err(|_| "more than 512 words of input")?;
        self.load(inputs);
        Ok(())
    }

    // Runs a call. One with another code ends the list.
    fn take_call(&mut self, line: &Line, list: &mut Report<'_>) -> Result<(), Fault> {
        let (request, n, room, code) = match (line.letter, line.values()) {
            (b's', Some([n, room, code])) => (Request::Segment(*n), *n, *room, *code),
            (b'p', Some([n, room, code])) => (Request::Padding(*n), *n, *room, *code),
            _ => return Err("not a call line"),
        };
        let Run { rows, places, .. } = self;
        let answer = run_call(rows.as_slice(), self.cursor, request, room, places)?;
        self.calls = one_more(self.calls);
        self.cursor = answer.cursor;
        if !compare(list, "code", code, number_of(answer.outcome)) {
            self.phase = Phase::List;
        } else if code == 0 && n > 0 {
            self.phase = Phase::Record { at: 0, count: n };
        } else {
            self.end_records(0, list);
        }
        Ok(())
    }

    // The places from `from` on are past the records, and are to be as before the call.
    fn end_records(&mut self, from: usize, list: &mut Report<'_>) {
        let mut places = self.places.iter().enumerate().skip(from);
        if let Some((place, _)) = places.find(|(_, word)| **word != GUARD) {
            list.wrong_fed(format_args!("place {place} is past the records and not kept\n"));
        }
        self.phase = Phase::Cursor;
    }

    fn take_record(
        &mut self,
        line: &Line,
        at: usize,
        count: u64,
        list: &mut Report<'_>,
    ) -> Result<(), Fault> {
        let want = match (line.letter, line.values()) {
            (b'r', Some(want)) if want.len() == RECORD_WORDS => want,
            _ => return Err("not a record line"),
        };
        if at >= MAX_RECORDS {
            return Err("more than 512 records");
        }
        self.records = one_more(self.records);
        let next = at + 1;
        let found = &self.places[at * RECORD_WORDS..next * RECORD_WORDS];
        let mut words = want.iter().zip(found).enumerate();
        if let Some((word, (want, found))) = words.find(|(_, (want, found))| want != found) {
            compare(list, format_args!("record {at} word {word}"), *want, *found);
        }
        if (next as u64) < count {
            self.phase = Phase::Record { at: next, count };
        } else {
            self.end_records(next * RECORD_WORDS, list);
        }
        Ok(())
    }

    fn take_cursor(&mut self, line: &Line, list: &mut Report<'_>) -> Result<(), Fault> {
        let want = match (line.letter, line.values()) {
            (b'c', Some(want)) if want.len() == NUMBER_NAMES.len() => want,
            _ => return Err("not a cursor line"),
        };
        let found = numbers_of(self.cursor);
        // The names end in the space before a number; here another text follows.
        for ((name, want), found) in NUMBER_NAMES.iter().zip(want).zip(&found) {
            compare(list, name.trim_end(), *want, *found);
        }
        self.phase = Phase::Cell(0);
        Ok(())
    }

    // Takes a cell that the list says is changed. It is compared again with the others after the
    // call, as it was found, so that a wrong one is said once.
    fn take_cell(&mut self, line: &Line, from: usize, list: &mut Report<'_>) -> Result<(), Fault> {
        let place = place_of(line, b'g', b'm', 2);
        let (Some(place), Some([_, value])) = (place, line.values()) else {
            return Err("not a cell line");
        };
        if place < from {
            list.wrong("not in ascending order");
            return Ok(());
        }
        self.phase = Phase::Cell(place + 1);
        let found = cells_of(self.cursor)[place];
        let before = mem::replace(&mut self.want[place], found);
        if compare(list, Place(place), *value, found) && found == before {
            list.wrong("the value from before the call");
        }
        Ok(())
    }

    // Compares the cells after a call. The next call goes on with those that were found, so that a
    // wrong one is said once.
    fn end_call(&mut self, list: &mut Report<'_>) {
        let found = cells_of(self.cursor);
        for (place, (want, found)) in self.want.iter().zip(&found).enumerate() {
            compare(list, Place(place), *want, *found);
        }
        self.want = found;
        self.phase = Phase::Call;
    }

    // A list ends where the next one begins or the file ends.
    fn end_list(&mut self, list: &mut Report<'_>) {
        match self.phase {
            Phase::First | Phase::List | Phase::Call => (),
            Phase::Cell(_) => self.end_call(list),
            _ => list.wrong("the list ends early"),
        }
    }

    // Ends what a line with this letter does not go on with.
    fn end_before(&mut self, letter: u8, list: &mut Report<'_>) {
        match (letter, self.phase) {
            (b'l', _) => self.end_list(list),
            (b'g' | b'm', _) => (),
            (_, Phase::Cell(_)) => self.end_call(list),
            _ => (),
        }
    }

    fn take_line(&mut self, line: &Line, list: &mut Report<'_>) -> Result<(), Fault> {
        match (line.letter, self.phase) {
            (b'l', _) | (_, Phase::First) => self.take_list(line),
            (_, Phase::List) => {
                list.counts.add_passed();
                Ok(())
            }
            (_, Phase::Word { words, inputs }) => self.take_word(line, words, inputs),
            (_, Phase::Input(inputs)) => self.take_input(line, inputs),
            (_, Phase::Call) => self.take_call(line, list),
            (_, Phase::Record { at, count }) => self.take_record(line, at, count, list),
            (_, Phase::Cursor) => self.take_cursor(line, list),
            (_, Phase::Cell(from)) => self.take_cell(line, from, list),
        }
    }
}

impl Replay for Run {
    fn take(&mut self, bytes: &[u8], list: &mut Report<'_>) {
        let line = calls::line_of(bytes);
        self.end_before(line.letter, list);
        list.line();
        if let Err(fault) = self.take_line(&line, list) {
            list.wrong(fault);
            self.phase = Phase::List;
        }
    }

    fn end(&mut self, list: &mut Report<'_>) {
        self.end_list(list);
    }
}
