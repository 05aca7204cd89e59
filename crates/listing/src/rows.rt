// The line of a ROM row, and the line in front of the rows of a program:
//
//     program: 0003 words, 0008 rows
//     002091b3 Shift 1 00 01 02 1 +1 0000000000000000
//
// A row line has the columns of a listing line but for two: from 9 the kind of the row, and from 28 a
// `+` and its distance from the first row of its instruction. A program line is padded with spaces.
ghost use Rattle.std.specs.Prelude.{◌≡◌};
ghost use Rattle.listing.specs.RowLines.{kind_name, row_line_of, head_of, program_counts};
ghost use Rattle.listing.specs.Lines.{compare_of};

use crate::{Fields, blank, compare, number_of, parsed_word, put_fields};
use expand::{RomRow, VirtualKind};
use lines::fill_decimal;

// What a row line says of its instruction: the word of it, where the row is its first. An enum of
// three, since an `Option` in an `Option` would name none of the cases.
#[derive(Clone, Copy)]
pub enum Head {
    First(u32),
    Later,
    NoLine,
}

// The counts of words and of rows that a program line gives.
#[derive(Clone, Copy)]
pub struct Sizes {
    pub words: u32,
    pub rows: u32,
}

// The name of a kind, in seven characters; that of a stage ends in its last decimal digit.
#[tactic(auto, unfolding(crate::specs::RowLines::kind_name))]
fn kind_name(kind: VirtualKind) -> [u8; 7]
    ensures { result ≡ kind_name kind }
{
    match kind {
        VirtualKind::Alu => *b"Alu    ",
        VirtualKind::ShiftStage { stage } => {
            let mut name = *b"Shift  ";
            fill_decimal(stage as u64, &mut name[6..]);
            name
        }
        VirtualKind::Load => *b"Load   ",
        VirtualKind::Store => *b"Store  ",
        VirtualKind::Branch => *b"Branch ",
        VirtualKind::Upper => *b"Upper  ",
        VirtualKind::Jump => *b"Jump   ",
        VirtualKind::System => *b"System ",
    }
}

// The line of a row word at a distance from the first row of its instruction.
pub fn row_line_of(word: u64, distance: usize) -> [u8; 48]
    ensures { result ≡ row_line_of word distance }
{
    let RomRow {
        kind,
        rd,
        rs1,
        rs2,
        funct3,
        imm,
        raw,
    } = expand::rom_row(word);
    let fields = Fields {
        raw,
        rd,
        rs1,
        rs2,
        funct3,
        imm,
    };
    let mut line = blank(&kind_name(kind), b'+');
    put_fields(&mut line, fields);
    fill_decimal(distance as u64, &mut line[29..30]);
    line
}

// A stored line against the line of a row word.
pub fn compare_row(line: &[u8; 48], word: u64, distance: usize) -> Result<usize, usize>
    ensures { result ≡ compare_of line.now (row_line_of word distance) }
{
    let made = row_line_of(word, distance);
    compare(line, &made)
}

// A row line has a word in front; the first row of an instruction has `+0`.
pub fn head_of(line: &[u8; 48]) -> Head
    ensures { result ≡ head_of line.now }
{
    match parsed_word(line) {
        Some(raw) if line[28] == b'+' && line[29] == b'0' => Head::First(raw),
        Some(_) => Head::Later,
        None => Head::NoLine,
    }
}

// A program line has these characters, and a decimal digit for each dot.
pub fn program_counts(line: &[u8; 48]) -> Option<Sizes>
    ensures { result ≡ program_counts line.now }
{
    let shape = b"program: .... words, .... rows                 \n";
    compare(shape, line).ok()?;
    let words = number_of(&line[9..13], 10)?;
    let rows = number_of(&line[21..25], 10)?;
    Some(Sizes { words, rows })
}
