// Whether two cursors are the same checkpoint. "The same checkpoint" is a term of document 01, "Execute, sameness, program", as
// request T-05 of document 02 has it.
#![tactic(auto)]

ghost use Rattle.std.specs.Prelude.{◌≡◌};
ghost use Rattle.checkpoint.specs.Checkpoint.{same_of, cursor_at};
ghost use Rattle.checkpoint.specs.Claims.{Exact, GoesOn};
ghost use Rattle.interp.specs.Laws.{uncounted};

use expand::MicroPc;
use interp::Cursor;

// What of a cursor counts for the same checkpoint: every field but cycles. Registers and RAM are lent where they lie, so that
// nothing is copied to compare them.
#[derive(Clone, Copy)]
pub struct Checkpoint<'a> {
    pub micro_pc: MicroPc,
    pub halted: bool,
    pub output: u64,
    pub next_fetch: MicroPc,
    pub regs: &'a [u64],
    pub ram: &'a [u64],
}

// Whether two cursors are the same checkpoint: every field but cycles agrees.
pub fn same_checkpoint(a: Cursor, b: Cursor) -> bool
    ensures { result ≡ same_of a b }
{
    same(checkpoint_of(&a), checkpoint_of(&b))
}

// What of a cursor counts.
#[tactic(auto, unfolding(crate::specs::Checkpoint::cursor_at, interp::specs::Laws::uncounted))]
fn checkpoint_of(cursor: &Cursor) -> Checkpoint<'_>
    ensures { cursor_at result ≡ uncounted cursor.now }
{
    Checkpoint {
        micro_pc: cursor.micro_pc,
        halted: cursor.halted,
        output: cursor.output,
        next_fetch: cursor.next_fetch,
        regs: &cursor.regs,
        ram: &cursor.ram,
    }
}

// Whether two checkpoints are the same: every field agrees. The arrays come last, since they take longest.
pub fn same(a: Checkpoint<'_>, b: Checkpoint<'_>) -> bool
    ensures { result ≡ same_of (cursor_at a.entry) (cursor_at b.entry) }
{
    a.micro_pc == b.micro_pc
        && a.halted == b.halted
        && a.output == b.output
        && a.next_fetch == b.next_fetch
        && a.regs == b.regs
        && a.ram == b.ram
}

// That the definition says "every field but cycles agrees" exactly (specs/Claims.antt). The function does nothing; its contract
// is the claim.
pub fn same_exactly()
    ensures { Exact }
{}

// What a user may rely on: that two that are the same go on alike (specs/Claims.antt). The function does nothing; its contract
// is the claim.
pub fn same_goes_on()
    ensures { GoesOn }
{}
