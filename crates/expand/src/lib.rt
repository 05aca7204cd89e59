// Microcode expansion, a port of magnetar-cpu's expand.rs: each instruction word becomes a row of the ROM, and a register
// shift six, one for each static shift by a power of two. A row is a word, raw + 2^32 * stage.
#![tactic(auto)]

ghost use Rattle.std.specs.Prelude.{◌≡◌, ◌+◌, ◌%◌, ◌^◌, ◌≤◌, ◌<◌, ◌++◌, length, take, drop};
ghost use Rattle.expand.specs.Rows.{is_reg_shift, row, alu_row, stage_rd, stage_row, stage_in_byte, op_row, load_row, store_row, branch_row, upper_row, jump_row, system_row, row_of_inst, row_of};
ghost use Rattle.expand.specs.Expand.{rows_of, expansion_of, starts_of, start_at, expand_refusal_number, expand_told_of, expand_answer_of, rows_after, starts_after, is_expansion};
ghost use Rattle.expand.specs.Code.{stages_after};
ghost use Rattle.expand.specs.Claims.{Decides, ExpansionLaws};

use decode::{Inst, Opcode};

// A 64-bit word.
pub type Word = u64;

// The rows of a register shift: one for each bit of an amount below 64. Stages are counted in a byte (T-03).
pub const SHIFT_STAGES: u8 = 6;

// The longest program that is expanded.
pub const MAX_PROGRAM_WORDS: usize = 1048576;

// A row position: the source's micro-PC.
#[derive(Clone, Copy, Debug, PartialEq, Eq)]
pub struct MicroPc(pub usize);

// A program position: the source's index of an instruction.
#[derive(Clone, Copy, Debug, PartialEq, Eq)]
pub struct InstPos(pub usize);

// The kind of a row.
#[derive(Clone, Copy, Debug, PartialEq, Eq)]
pub enum VirtualKind {
    // A full ALU operation, register or immediate form.
    Alu,
    // One stage of a register shift, 0 to 5.
    ShiftStage { stage: u8 },
    Load,
    Store,
    Branch,
    // lui, auipc.
    Upper,
    // jal, jalr.
    Jump,
    // ecall, ebreak, fence and words of no instruction: the machine halts.
    System,
}

// A row of the ROM, taken apart.
#[derive(Clone, Copy, Debug, PartialEq, Eq)]
pub struct RomRow {
    pub kind: VirtualKind,
    pub rd: usize,
    pub rs1: usize,
    pub rs2: usize,
    pub funct3: u32,
    // In two's complement.
    pub imm: Word,
    // The instruction word.
    pub raw: u32,
}

// Why a program is not expanded.
#[derive(Clone, Copy, Debug, PartialEq, Eq)]
pub enum Refusal {
    // 1: the program has no words, so it has no rows.
    NoRows,
    // 2: more than MAX_PROGRAM_WORDS words.
    TooManyRows,
    // 6: a buffer has too few places.
    Short,
}

// Its number in document 01's table.
impl From<Refusal> for u64 {
    ghost from_gives = { λ why number. number ≡ expand_refusal_number why };

    fn from(why: Refusal) -> u64 {
        match why {
            Refusal::NoRows => 1,
            Refusal::TooManyRows => 2,
            Refusal::Short => 6,
        }
    }
}

// The register that a stage writes: the last of them writes rd, the others none.
fn stage_rd(rd: usize, stage: u8) -> usize
    ensures { result ≡ stage_rd rd stage }
{
    if stage == SHIFT_STAGES - 1 { rd } else { 0 }
}

// A row with every field of the instruction. The rows of the kinds below name the fields that expand.rs does not take.
fn row(i: Inst, kind: VirtualKind) -> RomRow
    ensures { result ≡ row i kind i.rd i.rs1 i.rs2 i.funct3 i.imm }
{
    RomRow {
        kind,
        rd: i.rd,
        rs1: i.rs1,
        rs2: i.rs2,
        funct3: i.funct3,
        imm: i.imm,
        raw: i.raw,
    }
}

fn alu_row(i: Inst) -> RomRow
    ensures { result ≡ alu_row i }
{
    row(i, VirtualKind::Alu)
}

fn stage_row(i: Inst, stage: u8) -> RomRow
    ensures { result ≡ stage_row i stage }
{
    RomRow {
        rd: stage_rd(i.rd, stage),
        ..row(i, VirtualKind::ShiftStage { stage })
    }
}

// The stage that the upper half of a row word gives. One that does not fit a byte gives 255, which no register shift has.
fn stage_in_byte(upper: u64) -> u8
    ensures { result ≡ stage_in_byte upper }
{
    upper.min(u8::MAX as u64) as u8
}

fn op_row(i: Inst, upper: u64) -> RomRow
    ensures { result ≡ op_row i (stage_in_byte upper) }
{
    match i.funct3 {
        1 | 5 => stage_row(i, stage_in_byte(upper)),
        _ => alu_row(i),
    }
}

fn load_row(i: Inst) -> RomRow
    ensures { result ≡ load_row i }
{
    RomRow {
        rs2: 0,
        ..row(i, VirtualKind::Load)
    }
}

fn store_row(i: Inst) -> RomRow
    ensures { result ≡ store_row i }
{
    RomRow {
        rd: 0,
        ..row(i, VirtualKind::Store)
    }
}

fn branch_row(i: Inst) -> RomRow
    ensures { result ≡ branch_row i }
{
    RomRow {
        rd: 0,
        ..row(i, VirtualKind::Branch)
    }
}

fn upper_row(i: Inst) -> RomRow
    ensures { result ≡ upper_row i }
{
    RomRow {
        rs1: 0,
        rs2: 0,
        funct3: 0,
        ..row(i, VirtualKind::Upper)
    }
}

fn jump_row(i: Inst) -> RomRow
    ensures { result ≡ jump_row i }
{
    RomRow {
        rs2: 0,
        funct3: 0,
        ..row(i, VirtualKind::Jump)
    }
}

// The halt row reads x10, the output register.
fn system_row(i: Inst) -> RomRow
    ensures { result ≡ system_row i }
{
    RomRow {
        rd: 0,
        rs1: 10,
        rs2: 0,
        funct3: 0,
        imm: 0,
        ..row(i, VirtualKind::System)
    }
}

// It takes the upper half, so that only a register shift asks for its stage: every live cycle takes a row apart.
#[tactic(auto, unfolding(crate::specs::Rows::row_as))]
fn row_of_inst(i: Inst, upper: u64) -> RomRow
    ensures { result ≡ row_of_inst i (stage_in_byte upper) }
{
    match i.opcode {
        Opcode::Op => op_row(i, upper),
        Opcode::OpImm | Opcode::Op32 | Opcode::OpImm32 => alu_row(i),
        Opcode::Load => load_row(i),
        Opcode::Store => store_row(i),
        Opcode::Branch => branch_row(i),
        Opcode::Lui | Opcode::Auipc => upper_row(i),
        Opcode::Jal | Opcode::Jalr => jump_row(i),
        Opcode::Fence | Opcode::Ecall | Opcode::Ebreak | Opcode::Invalid => system_row(i),
    }
}

// The row of a row word. Any word has one: the upper half of a word that is no register shift is not looked at.
#[tactic(auto, unfolding(crate::specs::Rows::row_of))]
pub fn rom_row(word: u64) -> RomRow
    ensures { result ≡ row_of word }
{
    let raw = (word % 0x1_0000_0000) as u32;
    row_of_inst(decode::decode(raw), word / 0x1_0000_0000)
}

// The row position of an instruction's first row, by the starts of an expansion; none where the program has no such instruction.
pub fn inst_to_micro(starts: &[u64], at: InstPos) -> Option<MicroPc>
    ensures { result ≡ start_at starts.now at }
{
    let start = starts.get(at.0)?;
    Some(MicroPc(*start as usize))
}

// Whether the lower half of a row word is a register shift: opcode 0x33 with funct3 1 or 5. One mask and no call of the
// decoder, since every call of the layer above tests all its rows.
#[tactic(auto, using(crate::proofs::Shifts::tells))]
fn is_reg_shift(v: u64) -> bool
    ensures { result ≡ is_reg_shift (v % 2 ^ 32) }
{
    v & 0x307f == 0x1033
}

// Whether stages 1 to 5 of the word v follow its row at i. The loop goes over k, which is the stage as well as the place of its row.
fn stages_after(rows: &[u64], i: usize, v: u64) -> bool
    requires { (i < length rows.now) × (v < 2 ^ 32) }
    ensures { result ≡ stages_after rows.now i v }
{
    if rows.len() - i < SHIFT_STAGES as usize {
        return false;
    }
    for k in 1..SHIFT_STAGES {
        if rows[i + k as usize] != v + 0x1_0000_0000 * (k as u64) {
            return false;
        }
    }
    true
}

// Whether the rows are the expansion of a program of any length, in one pass. Refusal 3 is its answer false.
// It counts its place, since a step is one row or six: a walk over the rows that are left (`split_first`) is no plainer.
pub fn is_expansion(rows: &[u64]) -> bool
    ensures { result ≡ is_expansion rows.now }
{
    let mut i: usize = 0;
    while i < rows.len() {
        let v = rows[i];
        if 0x1_0000_0000 <= v {
            return false;
        }
        if is_reg_shift(v) {
            if !stages_after(rows, i, v) {
                return false;
            }
            i += SHIFT_STAGES as usize;
        } else {
            i += 1;
        }
    }
    true
}

// The test passes exactly the expansions (specs/Claims.antt).
#[tactic(auto, using(crate::proofs::Laws::decides))]
pub fn expansion_test()
    ensures { Decides }
{}

// What the layer above uses of rows and expansions, over their definitions (specs/Claims.antt).
#[tactic(auto, using(crate::proofs::Laws::laws))]
pub fn expansion_laws()
    ensures { ExpansionLaws }
{}

// How many rows a word has, counted as stages are.
#[tactic(auto, using(crate::proofs::Steps::rows_long))]
fn row_count(raw: u32) -> u8
    ensures { result ≡ length (rows_of raw) }
{
    if is_reg_shift(raw as u64) {
        SHIFT_STAGES
    } else {
        1
    }
}

// How many rows a program has.
fn count_rows(program: &[u32]) -> usize
    ensures { result ≡ length (expansion_of program.now) }
{
    program.iter().map(|raw| row_count(*raw) as usize).sum()
}

// Writes the rows of a word from `at` on, and answers the position after them. Row k of a shift is stage k, so the loop goes
// over k. A word of one row has a store of its own: with one loop over either count a word takes up to twice the time.
#[tactic(auto, using(crate::proofs::Expansion::rows_few, crate::proofs::Steps::put_more))]
fn put(rows: &mut [u64], at: MicroPc, raw: u32) -> MicroPc
    requires { at.0 + length (rows_of raw) ≤ length rows.old }
    ensures next { result.0 ≡ at.0 + length (rows_of raw) }
    ensures rows { rows.new ≡ take at.0 rows.old ++ rows_of raw ++ drop (at.0 + length (rows_of raw)) rows.old }
{
    let i = at.0;
    if is_reg_shift(raw as u64) {
        for k in 0..SHIFT_STAGES {
            rows[i + k as usize] = raw as u64 + 0x1_0000_0000 * (k as u64);
        }
        return MicroPc(i + SHIFT_STAGES as usize);
    }
    rows[i] = raw as u64;
    MicroPc(i + 1)
}

// Writes the rows and the starts of a program to the first places of the two buffers.
#[tactic(auto, using(crate::proofs::Expansion::room))]
fn fill(program: &[u32], rows: &mut [u64], starts: &mut [u64])
    requires { (length (expansion_of program.now) ≤ length rows.old) × (length program.now ≤ length starts.old) }
    ensures rows { rows.new ≡ expansion_of program.now ++ drop (length (expansion_of program.now)) rows.old }
    ensures starts { starts.new ≡ starts_of program.now ++ drop (length program.now) starts.old }
{
    let mut at = MicroPc(0);
    for (i, raw) in program.iter().enumerate() {
        starts[i] = at.0 as u64;
        at = put(rows, at, *raw);
    }
}

// The count of a program's rows, or why it is not expanded, by the places that it is lent.
#[tactic(auto, unfolding(crate::specs::Expand::expand_refusal_of))]
fn counted(program: &[u32], rows: &[u64], starts: &[u64]) -> Result<usize, Refusal>
    ensures { expand_told_of result ≡ expand_answer_of program.now rows.now starts.now }
{
    if program.is_empty() {
        return Err(Refusal::NoRows);
    }
    if MAX_PROGRAM_WORDS < program.len() {
        return Err(Refusal::TooManyRows);
    }
    let count = count_rows(program);
    if rows.len() < count || starts.len() < program.len() {
        return Err(Refusal::Short);
    }
    Ok(count)
}

// Expands a program: its row words go to the first places of `rows`, the row position of each word's first row to those
// of `starts`. Rows are counted before the first write, so that a refusal writes nothing.
pub fn expand_program(
    program: &[u32],
    rows: &mut [u64],
    starts: &mut [u64],
) -> Result<usize, Refusal>
    ensures answer { expand_told_of result ≡ expand_answer_of program.now rows.old starts.old }
    ensures rows { rows.new ≡ rows_after program.now rows.old starts.old }
    ensures starts { starts.new ≡ starts_after program.now rows.old starts.old }
{
    let n = counted(program, rows, starts)?;
    fill(program, rows, starts);
    Ok(n)
}
