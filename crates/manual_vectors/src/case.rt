// A case of a list: its lines, and what is said of it.
use crate::machine::{MAX_CYCLES, MAX_WORDS, Machine, Place};
use arrayvec::ArrayVec;
use calls::{Line, place_of};
use edges::{CELLS, cells_of, with_cell};
use interp::Cursor;
use report::{Console, Report};
use std::iter;

// What is wrong with a line that cannot stand where it does. Faults are texts: they are only said, and
// no caller tells one from another.
pub const ODD: &str = "of another form, out of order, or no change";

#[derive(Clone, Copy)]
pub enum Kind {
    Agreeing,
    Differing,
    Undefined,
}

impl Kind {
    // The kind of the case that a line of this letter begins. One that begins none is no error.
    pub fn of(letter: u8) -> Option<Kind> {
        match letter {
            b'a' => Some(Kind::Agreeing),
            b'd' => Some(Kind::Differing),
            b'u' => Some(Kind::Undefined),
            _ => None,
        }
    }
}

// When a place has the value of a line: before the run or after it. In this order they come.
#[derive(Clone, Copy, PartialEq, PartialOrd)]
enum Time {
    Before,
    After,
}

#[derive(Drop)]
pub struct Case {
    kind: Kind,
    // How many words the program is to have, and the cycles.
    words: usize,
    cycles: usize,
    // The words so far.
    program: ArrayVec<u32, MAX_WORDS>,
    start: Cursor,
    // What is expected after the run.
    want: Machine,
    // What the last line named.
    last: Option<(Time, Place)>,
}

// Says that a value is not the expected one.
fn say_other(list: &mut Report<'_>, place: Place, want: u64, found: u64) {
    list.wrong(format_args!("{place}: expected {want:#x}, found {found:#x}"));
}

// The place that a result names, and the numbers behind it.
fn result_of(line: &Line) -> Option<(Place, &[u64])> {
    match (line.letter, line.values()?) {
        (b'g' | b'r', [_, values @ ..]) => {
            let cell = place_of(line, b'g', b'r', values.len() + 1)?;
            Some((Place::Cell(cell), values))
        }
        (b't', values) => Some((Place::Taken, values)),
        (b'p', values) => Some((Place::Row, values)),
        (b'h', values) => Some((Place::Halted, values)),
        _ => None,
    }
}

impl Case {
    pub fn begin(kind: Kind, line: &Line) -> Result<Case, &'static str> {
        let Some([words, cycles]) = line.values() else {
            return Err(ODD);
        };
        let words = *words as usize;
        let cycles = *cycles as usize;
        if !(1..=MAX_WORDS).contains(&words) || !(1..=MAX_CYCLES).contains(&cycles) {
            return Err(ODD);
        }
        Ok(Case {
            kind,
            words,
            cycles,
            program: ArrayVec::new(),
            start: edges::fresh(),
            want: Machine::fresh(),
            last: None,
        })
    }

    fn has_words(&self) -> bool {
        self.program.len() >= self.words
    }

    // Takes the next line; none, where the case ends with it.
    pub fn take(
        mut self,
        line: &Line,
        list: &mut Report<'_>,
    ) -> Result<Option<Case>, &'static str> {
        if !self.has_words() {
            self.word_line(line)?;
            return Ok(Some(self));
        }
        match line.letter {
            b'x' | b'm' => {
                self.before_line(line)?;
                Ok(Some(self))
            }
            _ => self.result_line(line, list),
        }
    }

    // Takes a word of the program.
    fn word_line(&mut self, line: &Line) -> Result<(), &'static str> {
        match (line.letter, line.values()) {
            (b'w', Some([word])) => {
                let word = u32::try_from(*word).map_err(|_| ODD)?;
                self.program.try_push(word).map_err(|_| ODD)
            }
            _ => Err(ODD),
        }
    }

    // Takes a cell before the run. It is expected to stay.
    fn before_line(&mut self, line: &Line) -> Result<(), &'static str> {
        let cell = place_of(line, b'x', b'm', 2).ok_or(ODD)?;
        let Some([_, value]) = line.values() else {
            return Err(ODD);
        };
        self.start = with_cell(self.start, cell, *value);
        self.expect(Time::Before, Place::Cell(cell), *value)
    }

    // Takes a result. One of an agreeing case is compared where the case ends.
    fn result_line(
        mut self,
        line: &Line,
        list: &mut Report<'_>,
    ) -> Result<Option<Case>, &'static str> {
        match (self.kind, result_of(line)) {
            (Kind::Agreeing, Some((place, [value]))) => {
                self.expect(Time::After, place, *value)?;
                return Ok(Some(self));
            }
            (Kind::Differing, Some((place, [value, manual]))) => {
                self.judge(place, *value, Some(*manual), list)?;
            }
            (Kind::Undefined, Some((place, [value]))) => self.judge(place, *value, None, list)?,
            _ => return Err(ODD),
        }
        Ok(None)
    }

    // Expects a value at a place. It has to come in order, and to change what was expected.
    fn expect(&mut self, time: Time, place: Place, value: u64) -> Result<(), &'static str> {
        let named = (time, place);
        let in_order = self.last.is_none_or(|last| last < named);
        if !in_order || !place.is_manual() || value == self.want.at(place) {
            return Err(ODD);
        }
        self.want.set(place, value);
        self.last = Some(named);
        Ok(())
    }

    // Says the words of the program, and the cells before it that are not 0.
    fn say(&self, to: Console) {
        for (i, word) in self.program.iter().enumerate() {
            if i > 0 {
                to.say(" ");
            }
            to.say_whole(format_args!("{word:08x}"));
        }
        let mut link = " with ";
        for (i, value) in cells_of(self.start).iter().enumerate() {
            if *value != 0 {
                let place = Place::Cell(i);
                to.say(format_args!("{link}{place} {value:#x}"));
                link = ", ";
            }
        }
    }

    // What the program leaves.
    fn after(&self) -> Result<Machine, &'static str> {
        Machine::after(&self.program, self.start, self.cycles).ok_or("the call is refused")
    }

    // Checks the value of a case on which recorder and manual differ, and says it beside the manual's,
    // where that has one.
    fn judge(
        &self,
        place: Place,
        value: u64,
        manual: Option<u64>,
        list: &mut Report<'_>,
    ) -> Result<(), &'static str> {
        if place == Place::Taken {
            return Err(ODD);
        }
        let found = self.after()?.at(place);
        if value != found {
            say_other(list, place, value, found);
        } else if manual == Some(value) {
            list.wrong("no difference");
        } else {
            self.say(list.to);
            list.to.say(format_args!(": {place} is {value:#x}"));
            match manual {
                None => list.to.say(", not defined in the manual\n"),
                Some(u64::MAX) if place == Place::Row => list.to.say(", in the manual none\n"),
                Some(other) => list.to.say(format_args!(", in the manual {other:#x}\n")),
            }
        }
        Ok(())
    }

    // Ends the case: compares what an agreeing one leaves.
    pub fn end(&self, list: &mut Report<'_>) -> Result<(), &'static str> {
        match self.kind {
            Kind::Agreeing if self.has_words() => self.compare(list),
            _ => Err("the case ends early"),
        }
    }

    fn compare(&self, list: &mut Report<'_>) -> Result<(), &'static str> {
        let found = self.after()?;
        for place in (0..CELLS).map(Place::Cell).chain(iter::once(Place::Taken)) {
            let want = self.want.at(place);
            let value = found.at(place);
            if place.is_manual() && want != value {
                say_other(list, place, want, value);
            }
        }
        Ok(())
    }
}
