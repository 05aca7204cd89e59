// A decoded word as a line of text, and lists of such lines with stored answers.
//
// A line is 47 characters and a line feed, with a space between its columns:
//
//     00500513 OpImm   10 00 05 0 00 0000000000000005
//
// the word in hex from 0, the class from 9, rd, rs1 and rs2 in decimal from 17, 20 and 23, funct3
// at 26, funct7 in hex from 28 and the immediate in hex from 31. The module `rows` has the line of
// a ROM row.
#![tactic(auto)]

mod rows;

ghost use Rattle.std.specs.Prelude.{◌≡◌, ◌+◌, ◌^◌, ◌<◌, ◌≤◌, IfSome, length, slice_index};
ghost use Rattle.listing.specs.Lines.{name_of, word_line_of, hex_value, number_from, parsed_word, word_le, compare_of, judge_of};
ghost use Rattle.listing.specs.Steps.{put_fields, blank};

use decode::{Inst, Opcode};
use lines::{fill_decimal, fill_hex};
pub use rows::{Head, Sizes, compare_row, head_of, program_counts, row_line_of};

// Why a line with a stored answer is wrong: the place where it differs and the word of the line, or it
// is no listing line.
#[derive(Clone, Copy)]
pub enum Wrong {
    NoLine,
    Differs { at: usize, raw: u32 },
}

// The fields that the lines of a word and of a row have in common.
#[derive(Clone, Copy)]
struct Fields {
    raw: u32,
    rd: usize,
    rs1: usize,
    rs2: usize,
    funct3: u32,
    imm: u64,
}

// Puts them in at their columns.
fn put_fields(line: &mut [u8; 48], fields: Fields)
    ensures { line.new ≡ put_fields line.old fields }
{
    fill_hex(fields.raw as u64, &mut line[..8]);
    fill_decimal(fields.rd as u64, &mut line[17..19]);
    fill_decimal(fields.rs1 as u64, &mut line[20..22]);
    fill_decimal(fields.rs2 as u64, &mut line[23..25]);
    fill_decimal(fields.funct3 as u64, &mut line[26..27]);
    fill_hex(fields.imm, &mut line[31..47]);
}

// A line before its numbers are put in: a text of seven characters, and a mark at 28.
#[tactic(auto, using(crate::proofs::Laws::blank_made))]
fn blank(seven: &[u8; 7], mark: u8) -> [u8; 48]
    ensures { result ≡ blank seven.now mark }
{
    let mut line = [b' '; 48];
    line[9..16].copy_from_slice(seven);
    line[28] = mark;
    line[47] = b'\n';
    line
}

// The name of a class, in seven characters. Not by a derived `Debug`: no contract says what that prints.
#[tactic(auto, unfolding(crate::specs::Lines::name_of))]
fn name_of(op: Opcode) -> [u8; 7]
    ensures { result ≡ name_of op }
{
    match op {
        Opcode::Lui => *b"Lui    ",
        Opcode::Auipc => *b"Auipc  ",
        Opcode::Jal => *b"Jal    ",
        Opcode::Jalr => *b"Jalr   ",
        Opcode::Branch => *b"Branch ",
        Opcode::Load => *b"Load   ",
        Opcode::Store => *b"Store  ",
        Opcode::OpImm => *b"OpImm  ",
        Opcode::Op => *b"Op     ",
        Opcode::OpImm32 => *b"OpImm32",
        Opcode::Op32 => *b"Op32   ",
        Opcode::Fence => *b"Fence  ",
        Opcode::Ecall => *b"Ecall  ",
        Opcode::Ebreak => *b"Ebreak ",
        Opcode::Invalid => *b"Invalid",
    }
}

// The line of a word.
pub fn word_line_of(raw: u32) -> [u8; 48]
    ensures { result ≡ word_line_of raw }
{
    let Inst {
        opcode,
        rd,
        rs1,
        rs2,
        funct3,
        funct7,
        imm,
        raw,
    } = decode::decode(raw);
    let fields = Fields {
        raw,
        rd,
        rs1,
        rs2,
        funct3,
        imm,
    };
    let mut line = blank(&name_of(opcode), b' ');
    put_fields(&mut line, fields);
    fill_hex(funct7 as u64, &mut line[28..30]);
    line
}

// The value of a lower-case hexadecimal digit.
#[tactic(auto, unfolding(crate::specs::Lines::hex_value))]
pub fn hex_value(b: u8) -> Option<u32>
    ensures value { result ≡ hex_value b }
    ensures bound { IfSome result (λ d. d < 16) }
{
    match b {
        b'0'..=b'9' => Some(b as u32 - 48),
        b'a'..=b'f' => Some(b as u32 - 87),
        _ => None,
    }
}

// The number that some digits give.
fn number_of(digits: &[u8], base: u32) -> Option<u32>
    requires { (base ≤ 16) × (base ^ length digits.now ≤ 2 ^ 32) }
    ensures { result ≡ number_from base 0 digits.now }
{
    let mut number: u32 = 0;
    for c in digits {
        let digit = hex_value(*c)?;
        if base <= digit {
            return None;
        }
        number = number * base + digit;
    }
    Some(number)
}

// The word that a line begins with; a line has a line feed at its end.
fn parsed_word(line: &[u8; 48]) -> Option<u32>
    ensures { result ≡ parsed_word line.now }
{
    if line[47] != b'\n' {
        return None;
    }
    number_of(&line[..8], 16)
}

// The word of four bytes, the lowest first.
pub fn word_le(bytes: [u8; 4]) -> u32
    ensures { result ≡ word_le (slice_index bytes 0) (slice_index bytes 1) (slice_index bytes 2) (slice_index bytes 3) }
{
    u32::from_le_bytes(bytes)
}

// A stored line against a made one: how many characters are compared, or the first place that differs.
// A '.' that is stored stands for any character. It goes by the place, which is what it answers.
fn compare(stored: &[u8; 48], made: &[u8; 48]) -> Result<usize, usize>
    ensures { result ≡ compare_of stored.now made.now }
{
    let mut n = 0;
    for i in 0..48 {
        if stored[i] != b'.' {
            if stored[i] != made[i] {
                return Err(i);
            }
            n += 1;
        }
    }
    Ok(n)
}

// A stored line against the line of the word that it begins with.
pub fn judge(line: &[u8; 48]) -> Result<usize, Wrong>
    ensures { result ≡ judge_of line.now }
{
    let raw = parsed_word(line).ok_or(Wrong::NoLine)?;
    let made = word_line_of(raw);
    compare(line, &made).map_err(|at| Wrong::Differs { at, raw })
}
