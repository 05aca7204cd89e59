// What a cycle does, in parts: the cell it writes, the RAM word it shows, what it only shows.
ghost use Rattle.std.specs.Prelude.{◌≡◌, ◌<◌};
ghost use Rattle.interp.specs.Cycle.{redirect, writes, keeps, no_access, shows, effect};

use crate::Cursor;
use expand::MicroPc;

// The register cell that a cycle writes.
#[derive(Clone, Copy)]
pub(crate) struct Write {
    pub(crate) rd: usize,
    pub(crate) rd_val: u64,
    pub(crate) rd_old: u64,
}

// The RAM word that a cycle shows, and what it stores there.
#[derive(Clone, Copy)]
pub(crate) struct Access {
    pub(crate) ram_addr: usize,
    pub(crate) ram_old: u64,
    pub(crate) ram_new: u64,
    pub(crate) store_src: u64,
    pub(crate) byte_offset: u8,
    pub(crate) store_width: u8,
}

// What a cycle only shows.
#[derive(Clone, Copy)]
pub(crate) struct Shown {
    pub(crate) alu_a: u64,
    pub(crate) alu_b: u64,
    pub(crate) alu_out: u64,
    pub(crate) shift_out: u64,
    pub(crate) flags: u64,
}

// What an arm says that its row does.
#[derive(Clone, Copy)]
pub(crate) struct Effect {
    pub(crate) write: Write,
    pub(crate) access: Access,
    pub(crate) shown: Shown,
    // The accumulator of the shift stages after the cycle, where that is a new one.
    pub(crate) scratch: Option<u64>,
    pub(crate) next_pc: MicroPc,
    pub(crate) halts: bool,
}

// Destination 0 becomes cell 32.
fn redirected(rd: usize) -> usize
    ensures { result ≡ redirect rd }
{
    if rd == 0 { 32 } else { rd }
}

pub(crate) fn writes_to(rd: usize, v: u64, regs: &[u64; Cursor::REGS]) -> Write
    requires { rd < 32 }
    ensures { result ≡ writes rd v regs.now }
{
    let to = redirected(rd);
    let old = regs[to];
    Write {
        rd: to,
        rd_val: v,
        rd_old: old,
    }
}

// Every cycle writes one cell: without a destination, cell 32 gets its own content.
pub(crate) fn keeps_cell(regs: &[u64; Cursor::REGS]) -> Write
    ensures { result ≡ keeps regs.now }
{
    let old = regs[32];
    Write {
        rd: 32,
        rd_val: old,
        rd_old: old,
    }
}

pub(crate) fn no_access() -> Access
    ensures { result ≡ no_access }
{
    Access {
        ram_addr: 0,
        ram_old: 0,
        ram_new: 0,
        store_src: 0,
        byte_offset: 0,
        store_width: 0,
    }
}

pub(crate) fn showing(a: u64, b: u64, out: u64, shift: u64, flags: u64) -> Shown
    ensures { result ≡ shows a b out shift flags }
{
    Shown {
        alu_a: a,
        alu_b: b,
        alu_out: out,
        shift_out: shift,
        flags,
    }
}

// An effect that neither halts nor leaves a new accumulator.
pub(crate) fn plain(write: Write, access: Access, shown: Shown, next: MicroPc) -> Effect
    ensures { result ≡ effect write access shown next }
{
    Effect {
        write,
        access,
        shown,
        scratch: None,
        next_pc: next,
        halts: false,
    }
}
