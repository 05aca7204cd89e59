// One cycle: `commit` does what an arm says and writes the record of it.
ghost use Rattle.std.specs.Prelude.{◌≡◌, ◌+◌, ◌*◌, ◌^◌, ◌<◌, length, if◌then◌else◌};
ghost use Rattle.interp.specs.Machine.{words};
ghost use Rattle.interp.specs.Cycle.{accumulator, stage_arm, row_after, record_of, scratched, regs_after, ram_after, commit, step_at, frozen_at};
ghost use Rattle.interp.specs.Code.{InRange, Sound, whole};

use crate::arms::{
    alu_arm, branch_arm, jump_arm, load_arm, padding_arm, stage_arm, store_arm, system_arm,
    upper_arm,
};
use crate::effect::Effect;
use crate::{Cursor, CycleRecord, RECORD_WORDS};
use expand::{MicroPc, RomRow, VirtualKind, Word};

// A cursor in two halves: the loops take its numbers by value and its arrays lent, so that no cycle copies a cursor.
// The numbers.
#[derive(Clone, Copy)]
pub(crate) struct Core {
    pub(crate) micro_pc: MicroPc,
    pub(crate) cycles: u64,
    pub(crate) halted: bool,
    pub(crate) output: u64,
    pub(crate) next_fetch: MicroPc,
}

// The arrays.
#[derive(Clone, Copy)]
pub(crate) struct Memory {
    pub(crate) regs: [Word; Cursor::REGS],
    pub(crate) ram: [Word; Cursor::RAM_WORDS],
}

impl Memory {
    // The accumulator of a shift lies in cell 0.
    fn accumulator(&self) -> u64
        ensures { result ≡ accumulator self.now.regs }
    {
        self.regs[0]
    }

    // Leaves a new accumulator there.
    #[tactic(auto, unfolding(crate::specs::Cycle::scratched))]
    fn hold(&mut self, scratch: Option<u64>)
        ensures regs { self.new.regs ≡ scratched scratch self.old.regs }
        ensures ram { self.new.ram ≡ self.old.ram }
    {
        if let Some(v) = scratch {
            self.regs[0] = v;
        }
    }

    // Writes the cell of an effect.
    #[tactic(auto, unfolding(crate::specs::Cycle::regs_after))]
    fn write(&mut self, e: Effect)
        requires { Sound e }
        ensures regs { self.new.regs ≡ regs_after e self.old.regs }
        ensures ram { self.new.ram ≡ self.old.ram }
    {
        self.regs[e.write.rd] = e.write.rd_val;
    }

    // Stores ram_new, if is_store is set.
    #[tactic(auto, unfolding(crate::specs::Cycle::ram_after))]
    fn store(&mut self, e: Effect)
        requires { Sound e }
        ensures regs { self.new.regs ≡ self.old.regs }
        ensures ram { self.new.ram ≡ ram_after e self.old.ram }
    {
        if e.shown.flags / CycleRecord::IS_STORE % 2 == 1 {
            self.ram[e.access.ram_addr] = e.access.ram_new;
        }
    }
}

// The record of an effect at row `at`.
fn record_of(row: RomRow, at: MicroPc, e: Effect, memory: &Memory) -> CycleRecord
    requires { InRange row × Sound e }
    ensures { result ≡ record_of row at e memory.now.regs memory.now.ram }
{
    CycleRecord {
        micro_pc: at,
        rs1_val: memory.regs[row.rs1],
        rs2_val: memory.regs[row.rs2],
        rd_val: e.write.rd_val,
        rd_old: e.write.rd_old,
        rd: e.write.rd,
        ram_addr: e.access.ram_addr,
        ram_word: memory.ram[e.access.ram_addr],
        ram_old: e.access.ram_old,
        ram_new: e.access.ram_new,
        store_src: e.access.store_src,
        next_pc: e.next_pc,
        alu_a: e.shown.alu_a,
        alu_b: e.shown.alu_b,
        alu_out: e.shown.alu_out,
        shift_out: e.shown.shift_out,
        byte_offset: e.access.byte_offset,
        store_width: e.access.store_width,
        flags: e.shown.flags,
    }
}

// Word 16 of a record.
fn last_word(offset: u8, width: u8, flags: u64) -> u64
    requires { flags < 0x1000 }
    ensures { result ≡ offset + 0x100 * width + 0x1_0000 * flags }
{
    let o = offset as u64;
    let w = width as u64;
    o + 0x100 * w + 0x1_0000 * flags
}

// The words of a record. No `From`, which could not ask for the bound on the flags.
#[tactic(auto, unfolding(crate::specs::Machine::words))]
fn put(r: CycleRecord, out: &mut [u64; RECORD_WORDS])
    requires { r.flags < 0x1000 }
    ensures { out.new ≡ words r }
{
    let last = last_word(r.byte_offset, r.store_width, r.flags);
    *out = [
        r.micro_pc.0 as u64,
        r.rs1_val,
        r.rs2_val,
        r.rd_val,
        r.rd_old,
        r.rd as u64,
        r.ram_addr as u64,
        r.ram_word,
        r.ram_old,
        r.ram_new,
        r.store_src,
        r.next_pc.0 as u64,
        r.alu_a,
        r.alu_b,
        r.alu_out,
        r.shift_out,
        last,
    ];
}

// Writes the record of an effect at row `at`, and then does what it says to registers and RAM.
fn put_effect(
    row: RomRow,
    at: MicroPc,
    e: Effect,
    memory: &mut Memory,
    out: &mut [u64; RECORD_WORDS],
)
    requires { InRange row × Sound e }
    ensures regs { memory.new.regs ≡ regs_after e memory.old.regs }
    ensures ram { memory.new.ram ≡ ram_after e memory.old.ram }
    ensures shown { out.new ≡ words (record_of row at e memory.old.regs memory.old.ram) }
{
    let record = record_of(row, at, e, memory);
    memory.write(e);
    memory.store(e);
    put(record, out);
}

fn output_after(halts: bool, shown: u64, output: u64) -> u64
    ensures { result ≡ (if halts then shown else output) }
{
    if halts { shown } else { output }
}

// `commit`: does what the effect of a live cycle says, and gives the numbers after it.
fn commit(
    row: RomRow,
    core: Core,
    e: Effect,
    memory: &mut Memory,
    out: &mut [u64; RECORD_WORDS],
) -> Core
    requires { InRange row × (Sound e × (core.cycles < 2 ^ 62)) }
    ensures cursor { whole result memory.new ≡ (commit row (whole core memory.old) e).after }
    ensures shown { out.new ≡ words (commit row (whole core memory.old) e).shown }
{
    put_effect(row, core.micro_pc, e, memory, out);
    memory.hold(e.scratch);
    Core {
        micro_pc: e.next_pc,
        cycles: core.cycles + 1,
        halted: e.halts,
        output: output_after(e.halts, e.write.rd_val, core.output),
        next_fetch: e.next_pc,
    }
}

// The row after `at`. A compare is cheaper than a division.
fn next_row(at: MicroPc, count: usize) -> MicroPc
    requires { at.0 < count }
    ensures { result ≡ row_after at count }
{
    let next = at.0 + 1;
    if next == count {
        MicroPc(0)
    } else {
        MicroPc(next)
    }
}

// The effect of a stage of a shift, with the accumulator from where it lies.
fn stage_of(stage: u8, row: RomRow, next: MicroPc, memory: &Memory) -> Effect
    requires { InRange row }
    ensures { result ≡ stage_arm stage row next (accumulator memory.now.regs) memory.now.regs }
{
    stage_arm(stage, row, next, memory.accumulator(), &memory.regs)
}

// One live cycle, `step`, of the row at micro_pc. Each arm ends the cycle itself: the compiler then knows which parts of
// its effect are 0.
pub(crate) fn live_cycle(
    row: RomRow,
    count: usize,
    core: Core,
    memory: &mut Memory,
    out: &mut [u64; RECORD_WORDS],
) -> Core
    requires { InRange row × ((core.cycles < 2 ^ 62) × (core.micro_pc.0 < count)) }
    ensures cursor { whole result memory.new ≡ (step_at row count (whole core memory.old)).after }
    ensures shown { out.new ≡ words (step_at row count (whole core memory.old)).shown }
{
    let mp = core.micro_pc;
    let next = next_row(mp, count);
    match row.kind {
        VirtualKind::Alu => { commit(row, core, alu_arm(row, next, &memory.regs), memory, out) }
        VirtualKind::ShiftStage { stage } => {
            commit(row, core, stage_of(stage, row, next, memory), memory, out)
        }
        VirtualKind::Load => {
            let e = load_arm(row, next, &memory.regs, &memory.ram);
            commit(row, core, e, memory, out)
        }
        VirtualKind::Store => {
            let e = store_arm(row, next, &memory.regs, &memory.ram);
            commit(row, core, e, memory, out)
        }
        VirtualKind::Branch => {
            let e = branch_arm(row, mp, count, next, &memory.regs);
            commit(row, core, e, memory, out)
        }
        VirtualKind::Upper => {
            let e = upper_arm(row, mp, next, &memory.regs);
            commit(row, core, e, memory, out)
        }
        VirtualKind::Jump => {
            let e = jump_arm(row, mp, count, &memory.regs);
            commit(row, core, e, memory, out)
        }
        VirtualKind::System => { commit(row, core, system_arm(row, mp, &memory.regs), memory, out) }
    }
}

// One padding cycle, `frozen_record`, of the row at next_fetch. The numbers of the cursor stay.
pub(crate) fn padding_cycle(
    row: RomRow,
    core: Core,
    memory: &mut Memory,
    out: &mut [u64; RECORD_WORDS],
)
    requires { InRange row }
    ensures cursor { whole core memory.new ≡ (frozen_at row (whole core memory.old)).after }
    ensures shown { out.new ≡ words (frozen_at row (whole core memory.old)).shown }
{
    let e = padding_arm(row, core.next_fetch, core.output, &memory.regs);
    put_effect(row, core.next_fetch, e, memory, out);
}
