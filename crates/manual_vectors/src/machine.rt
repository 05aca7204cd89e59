// The machine after a case, as values at places.
use edges::{CELLS, Cells, cells_of, first_of};
use expand::MicroPc;
use interp::{Cursor, CycleRecord, RECORD_WORDS, Request};
use std::fmt;

// The most words of a program and its rows, and the most cycles.
pub const MAX_WORDS: usize = 8;

const MAX_ROWS: usize = 48;

pub const MAX_CYCLES: usize = 64;

// What a list names of a machine, in the order in which it comes there.
#[derive(Clone, Copy, PartialEq, PartialOrd)]
pub enum Place {
    // One of the cells of crate `edges`.
    Cell(usize),
    // Whether the program's last word, a branch, was taken.
    Taken,
    Row,
    Halted,
}

impl Place {
    // Whether the manual's machine has it, so that it is compared: not cell 0 and the recorder's own
    // registers, and rows are no addresses.
    pub fn is_manual(self) -> bool {
        match self {
            Place::Cell(i) => (1..32).contains(&i) || i >= Cursor::REGS,
            Place::Taken => true,
            Place::Row | Place::Halted => false,
        }
    }
}

impl fmt::Display for Place {
    fn fmt<W: fmt::Write>(&self, f: &mut fmt::Formatter<W>) -> fmt::Result {
        match *self {
            Place::Cell(i @ 0..=31) => write!(f, "x{i}"),
            Place::Cell(i) => match i.checked_sub(Cursor::REGS) {
                None => write!(f, "cell {i}"),
                Some(word) => write!(f, "word {word}"),
            },
            Place::Taken => f.write_str("the branch (0 not taken, 1 taken, 2 none)"),
            Place::Row => f.write_str("the next row"),
            Place::Halted => f.write_str("halted"),
        }
    }
}

// The values are numbers, since a list can expect any of them at each place.
#[derive(Drop)]
pub struct Machine {
    cells: Cells,
    taken: u64,
    row: u64,
    halted: u64,
}

// How the value at `Taken` says that the program's last word is no branch.
const NO_BRANCH: u64 = 2;

impl Machine {
    // All zero, and no branch.
    pub fn fresh() -> Machine {
        Machine {
            cells: [0; CELLS],
            taken: NO_BRANCH,
            row: 0,
            halted: 0,
        }
    }

    // What a program leaves after so many cycles; none, where it is refused, as no case within the
    // limits above is.
    pub fn after(program: &[u32], start: Cursor, cycles: usize) -> Option<Machine> {
        let mut rows = [0u64; MAX_ROWS];
        let mut starts = [0u64; MAX_WORDS];
        let count = expand::expand_program(program, &mut rows, &mut starts).ok()?;
        let mut records = [[0u64; RECORD_WORDS]; MAX_CYCLES];
        let request = Request::Segment(cycles as u64);
        let answer = interp::run_call(
            first_of(&rows, count),
            start,
            request,
            records.as_flattened_mut(),
        );
        answer.outcome.ok()?;
        let last = first_of(&records, cycles).last()?;
        let Cursor {
            micro_pc: MicroPc(row),
            halted,
            ..
        } = answer.cursor;
        Some(Machine {
            cells: cells_of(answer.cursor),
            taken: taken_of(program, last).map_or(NO_BRANCH, u64::from),
            row: row as u64,
            halted: u64::from(halted),
        })
    }

    pub fn at(&self, place: Place) -> u64 {
        match place {
            Place::Cell(i) => self.cells.get(i).copied().unwrap_or(0),
            Place::Taken => self.taken,
            Place::Row => self.row,
            Place::Halted => self.halted,
        }
    }

    pub fn set(&mut self, place: Place, value: u64) {
        match place {
            Place::Cell(i) => {
                if let Some(cell) = self.cells.get_mut(i) {
                    *cell = value;
                }
            }
            Place::Taken => self.taken = value,
            Place::Row => self.row = value,
            Place::Halted => self.halted = value,
        }
    }
}

// Whether the last word of a program, a branch, was taken in the cycle of this record, whose flags are
// word 16 div 2^16; none, where that word is no branch.
fn taken_of(program: &[u32], record: &[u64; RECORD_WORDS]) -> Option<bool> {
    let word = program.last()?;
    let is_taken = record[16] / 0x1_0000 & CycleRecord::BRANCH_TAKEN != 0;
    (*word % 0x80 == 0x63).then_some(is_taken)
}
