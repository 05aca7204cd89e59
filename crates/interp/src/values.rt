// The values that the arms of magnetar-cpu's interp.rs compute, on words. No function here reads a register, a RAM word or a
// row: the arms do.
ghost use Rattle.std.specs.Prelude.{◌≡◌, ◌-◌, ◌*◌, ◌%◌, ◌^◌};
ghost use Rattle.interp.specs.Values.{plus, minus, left, right, signed_right, less, bool_word, second_operand, shift, sum, alu_value, upper_value, stage_amount, stage_value, ram_addr_of, byte_offset_of, byte, half, load_value, store_width, store_value, branch_taken, quarter_on, row_count, branch_target, jalr_target, link_value};
ghost use Rattle.interp.specs.Readings.{Signed};

use crate::Cursor;
use expand::MicroPc;

// A shift amount is taken modulo 64.
fn shift_left(x: u64, k: u64) -> u64
    ensures { result ≡ left x (k % 64) }
{
    x << (k & 63)
}

fn shift_right(x: u64, k: u64) -> u64
    ensures { result ≡ right x (k % 64) }
{
    x >> (k & 63)
}

// The source shifts an i64.
fn shift_right_signed(x: u64, k: u64) -> u64
    ensures { result ≡ signed_right x (k % 64) }
{
    (x.cast_signed() >> (k & 63)).cast_unsigned()
}

fn shift_by(funct3: u32, raw: u32, x: u64, k: u64) -> u64
    ensures { result ≡ shift funct3 raw x (k % 64) }
{
    match funct3 {
        1 => shift_left(x, k),
        5 => {
            if raw >> 25 == 0x20 {
                shift_right_signed(x, k)
            } else {
                shift_right(x, k)
            }
        }
        _ => x,
    }
}

// The source compares two i64.
fn signed_less(a: u64, b: u64) -> bool
    ensures { result ≡ less a b }
{
    a.cast_signed() < b.cast_signed()
}

fn bool_word(t: bool) -> u64
    ensures { result ≡ bool_word t }
{
    u64::from(t)
}

// The ALU's second operand: b where raw's opcode is 0x33, else the immediate.
pub(crate) fn second_operand(raw: u32, b: u64, imm: u64) -> u64
    ensures { result ≡ second_operand raw b imm }
{
    if raw & 0x7f == 0x33 { b } else { imm }
}

fn add_or_sub(raw: u32, a: u64, b: u64) -> u64
    ensures { result ≡ sum raw a b }
{
    if raw & 0x7f == 0x33 && raw >> 25 == 0x20 {
        a.wrapping_sub(b)
    } else {
        a.wrapping_add(b)
    }
}

// What an ALU row writes, of a and the second operand b. Of funct3 2 the source writes 0; T-01 compares signed.
pub(crate) fn alu_value(funct3: u32, raw: u32, a: u64, b: u64) -> u64
    ensures { result ≡ alu_value funct3 raw a b }
{
    match funct3 {
        0 => add_or_sub(raw, a, b),
        1 => shift_by(1, raw, a, b),
        2 => bool_word(signed_less(a, b)),
        3 => bool_word(a < b),
        4 => a ^ b,
        5 => shift_by(5, raw, a, b),
        6 => a | b,
        7 => a & b,
        _ => 0,
    }
}

// What LUI and AUIPC write.
pub(crate) fn upper_value(raw: u32, imm: u64, mp: MicroPc) -> u64
    ensures { result ≡ upper_value raw imm mp }
{
    if raw & 0x7f == 0x17 {
        imm.wrapping_add((mp.0 as u64) << 2)
    } else {
        imm
    }
}

// No stage past the sixth shifts, so that every stage has an answer: a shift by 64 places or more has none.
fn stage_amount(stage: u8, b: u64) -> u64
    ensures { result ≡ stage_amount stage b }
{
    if stage < 6 {
        ((b >> stage) & 1) << stage
    } else {
        0
    }
}

// The accumulator after a stage of a register shift by b.
pub(crate) fn stage_value(stage: u8, funct3: u32, raw: u32, acc: u64, b: u64) -> u64
    ensures { result ≡ stage_value stage funct3 raw acc b }
{
    shift_by(funct3, raw, acc, stage_amount(stage, b))
}

// The address of a load or a store, its RAM word and its byte in that word.
pub(crate) fn address_of(a: u64, imm: u64) -> u64
    ensures { result ≡ plus a imm }
{
    a.wrapping_add(imm)
}

pub(crate) fn ram_addr_of(address: u64) -> usize
    ensures { result ≡ ram_addr_of address }
{
    (address / 8) as usize % Cursor::RAM_WORDS
}

pub(crate) fn byte_offset_of(address: u64) -> u8
    ensures { result ≡ byte_offset_of address }
{
    (address % 8) as u8
}

// The closure `byte` of the source's extract_load.
fn byte_of(word: u64, i: u64) -> u64
    ensures { result ≡ byte word i }
{
    (word >> (8 * (i & 7))) & 0xff
}

fn half_of(word: u64, off: u8) -> u64
    ensures { result ≡ half word off }
{
    let i = off as u64;
    let high = byte_of(word, i + 1);
    (high << 8) | byte_of(word, i)
}

// What a load takes out of its RAM word.
pub(crate) fn extract_load(word: u64, funct3: u32, off: u8) -> u64
    ensures { result ≡ load_value funct3 word off }
{
    match funct3 {
        0 | 4 => byte_of(word, off as u64),
        1 | 5 => half_of(word, off),
        _ => word,
    }
}

// The bytes of a store.
pub(crate) fn store_width(funct3: u32) -> u8
    ensures { result ≡ store_width funct3 }
{
    match funct3 {
        0 => 1,
        1 => 2,
        2 => 4,
        _ => 8,
    }
}

// The mask of a store at offset 0.
fn ones_of(funct3: u32) -> u64
    ensures { result ≡ 2 ^ (8 * store_width funct3) - 1 }
{
    match funct3 {
        0 => 0xff,
        1 => 0xffff,
        2 => 0xffff_ffff,
        _ => u64::MAX,
    }
}

// The RAM word after a store of src. An offset is below 8; the mask keeps the shift below 64 whatever it is.
pub(crate) fn store_value(funct3: u32, old: u64, src: u64, off: u8) -> u64
    ensures { result ≡ store_value funct3 old src off }
{
    let k = 8 * ((off & 7) as u64);
    let mask = ones_of(funct3) << k;
    (old & !mask) | ((src << k) & mask)
}

// Whether a branch is taken.
pub(crate) fn branch_taken(funct3: u32, a: u64, b: u64) -> bool
    ensures { result ≡ branch_taken funct3 a b }
{
    match funct3 {
        0 => a == b,
        1 => a != b,
        4 => signed_less(a, b),
        5 => !signed_less(a, b),
        6 => a < b,
        7 => !(a < b),
        _ => false,
    }
}

// The source divides an i64, which rounds towards zero, and takes the larger of the sum and 0. Both signs are told apart here,
// since a row position from 2^63 on would be negative in a sum of i64.
fn quarter_on(mp: usize, imm: u64) -> usize
    ensures { result ≡ quarter_on mp imm }
{
    if imm < 0x8000_0000_0000_0000 {
        (mp as u64).wrapping_add(imm / 4) as usize
    } else {
        mp.saturating_sub((imm.wrapping_neg() / 4) as usize)
    }
}

// The source's prog_len, by which a target is never divided by 0.
#[tactic(auto, unfolding(crate::specs::Values::row_count))]
fn row_count(rows: usize) -> usize
    ensures { result ≡ row_count rows }
{
    rows.max(1)
}

// The row that a branch or JAL at row mp goes to.
pub(crate) fn branch_target(mp: MicroPc, imm: u64, rows: usize) -> MicroPc
    ensures { result ≡ branch_target mp imm rows }
{
    let to = quarter_on(mp.0, imm);
    MicroPc(to % row_count(rows))
}

// The row that JALR goes to.
pub(crate) fn jalr_target(a: u64, imm: u64, rows: usize) -> MicroPc
    ensures { result ≡ jalr_target a imm rows }
{
    let to = a.wrapping_add(imm) / 4;
    MicroPc(to as usize % row_count(rows))
}

// What a jump at row mp writes.
pub(crate) fn link_value(mp: MicroPc) -> u64
    ensures { result ≡ link_value mp }
{
    ((mp.0 as u64) << 2).wrapping_add(4)
}

// The forms that read a word as a signed number, and the six stages as one shift (specs/Readings.antt).
pub fn signed_readings()
    ensures { Signed }
{}
