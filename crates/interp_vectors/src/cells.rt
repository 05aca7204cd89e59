// The cells of a cursor: what a fresh one has, and how they are named.
use edges::{CELLS, Cells};
use interp::Cursor;
use std::fmt;

// A place of the list of cells, in words.
#[derive(Clone, Copy)]
pub struct Place(pub usize);

impl fmt::Display for Place {
    fn fmt<W: fmt::Write>(&self, f: &mut fmt::Formatter<W>) -> fmt::Result {
        match self.0.checked_sub(Cursor::REGS) {
            Some(word) => write!(f, "RAM word {word}"),
            None => write!(f, "register {}", self.0),
        }
    }
}

// The cells of a fresh cursor: the input's first 256 words in RAM, all else 0. They are computed apart
// from `Cursor::start` on purpose, since what that makes is compared with them.
pub fn start_cells(input: &[u64]) -> Cells {
    let mut cells = [0u64; CELLS];
    let kept = input.len().min(Cursor::RAM_WORDS);
    cells[Cursor::REGS..Cursor::REGS + kept].copy_from_slice(&input[..kept]);
    cells
}
