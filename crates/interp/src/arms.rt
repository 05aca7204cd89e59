// The arms of the source's `step`, and that of `frozen_record`: each says what a row of its kind does.
ghost use Rattle.std.specs.Prelude.{◌≡◌, if◌then◌else◌, nat_eq};
ghost use Rattle.interp.specs.Values.{branch_target};
ghost use Rattle.interp.specs.Cycle.{sub_flag, alu_flags, shift_out, alu_arm, stage_effect, stage_arm, load_flag, load_flags, load_arm, store_arm, branch_flags, branch_arm, upper_arm, jump_target, jump_arm, system_arm, padding_arm};
ghost use Rattle.interp.specs.Code.{InRange};

use crate::effect::{Access, Effect, Write, keeps_cell, no_access, plain, showing, writes_to};
use crate::{Cursor, CycleRecord, values};
use expand::{MicroPc, RomRow};

fn sub_flag(raw: u32) -> u64
    ensures { result ≡ sub_flag raw }
{
    if raw & 0x7f == 0x33 {
        if raw >> 25 == 0x20 {
            return CycleRecord::IS_SUB_OP;
        }
    }
    0
}

// Of funct3 2 the source sets WE alone; T-01 has the flags of 3.
fn alu_flags(funct3: u32, raw: u32) -> u64
    ensures { result ≡ alu_flags funct3 raw }
{
    match funct3 {
        0 => CycleRecord::WE + CycleRecord::IS_ARITH + sub_flag(raw),
        1 => CycleRecord::WE + CycleRecord::IS_SHIFT,
        2 => CycleRecord::WE + CycleRecord::IS_ARITH + CycleRecord::IS_SUB_OP,
        3 => CycleRecord::WE + CycleRecord::IS_ARITH + CycleRecord::IS_SUB_OP,
        4 => CycleRecord::WE + CycleRecord::IS_LOGIC,
        5 => CycleRecord::WE + CycleRecord::IS_SHIFT,
        6 => CycleRecord::WE + CycleRecord::IS_LOGIC,
        7 => CycleRecord::WE + CycleRecord::IS_LOGIC,
        _ => CycleRecord::WE,
    }
}

fn shift_out(funct3: u32, v: u64) -> u64
    ensures { result ≡ shift_out funct3 v }
{
    match funct3 {
        1 | 5 => v,
        _ => 0,
    }
}

pub(crate) fn alu_arm(row: RomRow, next: MicroPc, regs: &[u64; Cursor::REGS]) -> Effect
    requires { InRange row }
    ensures { result ≡ alu_arm row next regs.now }
{
    let a = regs[row.rs1];
    let b = values::second_operand(row.raw, regs[row.rs2], row.imm);
    let v = values::alu_value(row.funct3, row.raw, a, b);
    let shift = shift_out(row.funct3, v);
    let shown = showing(a, b, v, shift, alu_flags(row.funct3, row.raw));
    plain(writes_to(row.rd, v, regs), no_access(), shown, next)
}

// The accumulator: rs1 at stage 0, else what the stage before left.
fn accumulated(stage: u8, a: u64, acc: u64) -> u64
    ensures { result ≡ (if nat_eq stage 0 then a else acc) }
{
    if stage == 0 { a } else { acc }
}

// Stages 0 to 4 leave the value in the accumulator, stage 5 writes it to rd.
fn stage_effect(stage: u8, row: RomRow, next: MicroPc, v: u64, regs: &[u64; Cursor::REGS]) -> Effect
    requires { InRange row }
    ensures { result ≡ stage_effect stage row next v regs.now }
{
    let a = regs[row.rs1];
    let b = regs[row.rs2];
    if stage == expand::SHIFT_STAGES - 1 {
        let shown = showing(a, b, v, 0, CycleRecord::WE);
        return plain(writes_to(row.rd, v, regs), no_access(), shown, next);
    }
    Effect {
        write: keeps_cell(regs),
        access: no_access(),
        shown: showing(a, b, v, 0, 0),
        scratch: Some(v),
        next_pc: next,
        halts: false,
    }
}

pub(crate) fn stage_arm(
    stage: u8,
    row: RomRow,
    next: MicroPc,
    acc: u64,
    regs: &[u64; Cursor::REGS],
) -> Effect
    requires { InRange row }
    ensures { result ≡ stage_arm stage row next acc regs.now }
{
    let a = regs[row.rs1];
    let b = regs[row.rs2];
    let from = accumulated(stage, a, acc);
    let v = values::stage_value(stage, row.funct3, row.raw, from, b);
    stage_effect(stage, row, next, v, regs)
}

fn load_flag(funct3: u32) -> u64
    ensures { result ≡ load_flag funct3 }
{
    match funct3 {
        0 | 4 => CycleRecord::LD_BYTE,
        1 | 5 => CycleRecord::LD_HALF,
        _ => CycleRecord::LD_WORD,
    }
}

fn load_flags(funct3: u32) -> u64
    ensures { result ≡ load_flags funct3 }
{
    CycleRecord::WE + CycleRecord::IS_ARITH + CycleRecord::IS_LOAD + load_flag(funct3)
}

pub(crate) fn load_arm(
    row: RomRow,
    next: MicroPc,
    regs: &[u64; Cursor::REGS],
    ram: &[u64; Cursor::RAM_WORDS],
) -> Effect
    requires { InRange row }
    ensures { result ≡ load_arm row next regs.now ram.now }
{
    let a = regs[row.rs1];
    let address = values::address_of(a, row.imm);
    let addr = values::ram_addr_of(address);
    let off = values::byte_offset_of(address);
    let v = values::extract_load(ram[addr], row.funct3, off);
    let access = Access {
        ram_addr: addr,
        ram_old: 0,
        ram_new: 0,
        store_src: 0,
        byte_offset: off,
        store_width: 0,
    };
    let shown = showing(a, row.imm, address, 0, load_flags(row.funct3));
    plain(writes_to(row.rd, v, regs), access, shown, next)
}

pub(crate) fn store_arm(
    row: RomRow,
    next: MicroPc,
    regs: &[u64; Cursor::REGS],
    ram: &[u64; Cursor::RAM_WORDS],
) -> Effect
    requires { InRange row }
    ensures { result ≡ store_arm row next regs.now ram.now }
{
    let a = regs[row.rs1];
    let b = regs[row.rs2];
    let address = values::address_of(a, row.imm);
    let addr = values::ram_addr_of(address);
    let off = values::byte_offset_of(address);
    let old = ram[addr];
    let new = values::store_value(row.funct3, old, b, off);
    let access = Access {
        ram_addr: addr,
        ram_old: old,
        ram_new: new,
        store_src: b,
        byte_offset: off,
        store_width: values::store_width(row.funct3),
    };
    let shown = showing(a, row.imm, address, 0, CycleRecord::IS_STORE);
    plain(keeps_cell(regs), access, shown, next)
}

fn branch_flags(taken: bool) -> u64
    ensures { result ≡ branch_flags taken }
{
    let compare = CycleRecord::IS_ARITH + CycleRecord::IS_SUB_OP;
    if taken {
        compare + CycleRecord::BRANCH_TAKEN
    } else {
        compare
    }
}

fn branch_next(taken: bool, mp: MicroPc, imm: u64, count: usize, next: MicroPc) -> MicroPc
    ensures { result ≡ (if taken then branch_target mp imm count else next) }
{
    if taken {
        values::branch_target(mp, imm, count)
    } else {
        next
    }
}

pub(crate) fn branch_arm(
    row: RomRow,
    mp: MicroPc,
    count: usize,
    next: MicroPc,
    regs: &[u64; Cursor::REGS],
) -> Effect
    requires { InRange row }
    ensures { result ≡ branch_arm row mp count next regs.now }
{
    let a = regs[row.rs1];
    let b = regs[row.rs2];
    let taken = values::branch_taken(row.funct3, a, b);
    let difference = a.wrapping_sub(b);
    let shown = showing(a, b, difference, 0, branch_flags(taken));
    let to = branch_next(taken, mp, row.imm, count, next);
    plain(keeps_cell(regs), no_access(), shown, to)
}

pub(crate) fn upper_arm(
    row: RomRow,
    mp: MicroPc,
    next: MicroPc,
    regs: &[u64; Cursor::REGS],
) -> Effect
    requires { InRange row }
    ensures { result ≡ upper_arm row mp next regs.now }
{
    let a = regs[row.rs1];
    let b = regs[row.rs2];
    let v = values::upper_value(row.raw, row.imm, mp);
    let shown = showing(a, b, v, 0, CycleRecord::WE);
    plain(writes_to(row.rd, v, regs), no_access(), shown, next)
}

fn jump_target(row: RomRow, mp: MicroPc, count: usize, a: u64) -> MicroPc
    ensures { result ≡ jump_target row mp count a }
{
    if row.raw & 0x7f == 0x67 {
        values::jalr_target(a, row.imm, count)
    } else {
        values::branch_target(mp, row.imm, count)
    }
}

// The source writes the link before it looks at the old content: the rd_old of a jump is its link.
pub(crate) fn jump_arm(row: RomRow, mp: MicroPc, count: usize, regs: &[u64; Cursor::REGS]) -> Effect
    requires { InRange row }
    ensures { result ≡ jump_arm row mp count regs.now }
{
    let a = regs[row.rs1];
    let b = regs[row.rs2];
    let target = jump_target(row, mp, count, a);
    if row.rd == 0 {
        let shown = showing(a, b, 0, 0, 0);
        return plain(keeps_cell(regs), no_access(), shown, target);
    }
    let link = values::link_value(mp);
    let write = Write {
        rd: row.rd,
        rd_val: link,
        rd_old: link,
    };
    let shown = showing(a, b, link, 0, CycleRecord::WE);
    plain(write, no_access(), shown, target)
}

pub(crate) fn system_arm(row: RomRow, mp: MicroPc, regs: &[u64; Cursor::REGS]) -> Effect
    requires { InRange row }
    ensures { result ≡ system_arm row mp regs.now }
{
    let a = regs[row.rs1];
    let b = regs[row.rs2];
    let output = regs[10];
    let old = regs[32];
    let write = Write {
        rd: 32,
        rd_val: output,
        rd_old: old,
    };
    let shown = showing(a, b, output, 0, CycleRecord::HALTED_LATCH);
    Effect {
        write,
        access: no_access(),
        shown,
        scratch: None,
        next_pc: mp,
        halts: true,
    }
}

// What a padding cycle does: the arm of `frozen_record`.
pub(crate) fn padding_arm(
    row: RomRow,
    at: MicroPc,
    output: u64,
    regs: &[u64; Cursor::REGS],
) -> Effect
    requires { InRange row }
    ensures { result ≡ padding_arm row at output regs.now }
{
    let shown = showing(0, 0, 0, 0, CycleRecord::HALTED_LATCH);
    plain(writes_to(row.rd, output, regs), no_access(), shown, at)
}
