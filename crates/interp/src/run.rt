// The loops: live cycles, and padding behind them.
ghost use Rattle.std.specs.Prelude.{◌≡◌, ◌-◌, ◌*◌, ◌^◌, ◌≤◌, true, ◌++◌, length, take, drop, if◌then◌else◌, ◌==◌};
ghost use Rattle.interp.specs.Machine.{row_at, flat};
ghost use Rattle.interp.specs.Cycle.{frozen_at};
ghost use Rattle.interp.specs.Calls.{recorded, end};
ghost use Rattle.interp.specs.Execute.{live_count_of, stopped_at, live_records_of, next_power_of_two};
ghost use Rattle.interp.specs.Code.{InRange, whole, core_of, due_of, Ready, Room, padded_to};

use crate::cycle::{Core, Memory, live_cycle, padding_cycle};
use crate::{Cursor, Execution, RECORD_WORDS};
use expand::{MicroPc, RomRow};

// How many records are due. An enum and no closure: the contracts name the two cases, and of a closure they could only say
// what it answers.
#[derive(Clone, Copy)]
pub(crate) enum Due {
    // As many as the call was asked for.
    Exactly(usize),
    // The smallest power of two that holds the live ones.
    PowerOfTwo,
}

// Where the live cycles of a call ended: the numbers of the cursor, how many live cycles there were, and the row at next_fetch.
#[derive(Clone, Copy)]
struct Stopped {
    core: Core,
    count: usize,
    row: RomRow,
}

// Whether the live cycles end: the machine has halted, or as many as allowed were taken.
fn is_over(halted: bool, taken: usize, limit: usize) -> bool
    ensures { result ≡ (if halted then true else (taken == limit)) }
{
    halted || taken == limit
}

// The row of the first turn: the next live one, or where padding stays.
fn fetch_row(over: bool, fetch: MicroPc, pc: MicroPc) -> MicroPc
    ensures { result ≡ (if over then fetch else pc) }
{
    if over { fetch } else { pc }
}

// The numbers of a cursor, made field by field: a copy of the whole copies the padding bytes behind `halted` too.
fn afresh(k: Core) -> Core
    ensures { result ≡ k }
{
    Core {
        micro_pc: MicroPc(k.micro_pc.0),
        cycles: k.cycles,
        halted: k.halted,
        output: k.output,
        next_fetch: MicroPc(k.next_fetch.0),
    }
}

// Live cycles until the machine halts, at most `limit`; they are counted. A row is taken apart in one place, so that the
// compiler builds the decoder into the loop: where the live cycles end, that is the row at which padding stays. After a cycle
// both positions are one, so that a row is fetched without waiting for the test whether it is live. The cycles are counted by
// hand: document 01 has execute count them, and their number, at which padding starts, is an answer.
// The buffer is cut here and not by `as_chunks_mut`, whose contract does not say what the slice ends as; and twice, so that the
// compiler knows the length of a part: `first_chunk_mut` of the rest costs a live cycle eight instructions more.
fn run_live(
    rows: &[u64],
    start: Core,
    limit: usize,
    memory: &mut Memory,
    records: &mut [u64],
) -> Stopped
    requires { Ready (length rows.now) start limit (length records.old) }
    ensures count { result.count ≡ live_count_of rows.now limit (whole start memory.old) }
    ensures row { result.row ≡ row_at rows.now result.core.next_fetch.0 }
    ensures cursor { whole result.core memory.new ≡ stopped_at rows.now limit (whole start memory.old) }
    ensures records { records.new ≡ flat (live_records_of rows.now limit (whole start memory.old)) ++ drop (17 * result.count) records.old }
{
    let mut core = afresh(start);
    let mut i: usize = 0;
    let over = is_over(core.halted, i, limit);
    let mut at = fetch_row(over, core.next_fetch, core.micro_pc);
    loop {
        let row = expand::rom_row(rows[at.0]);
        if is_over(core.halted, i, limit) {
            return Stopped {
                core,
                count: i,
                row,
            };
        }
        let base = RECORD_WORDS * i;
        let (_, rest) = records.split_at_mut(base);
        let (part, _) = rest.split_at_mut(RECORD_WORDS);
        let Some(record) = part.as_mut_array() else {
            unreachable!()
        };
        let next = live_cycle(row, rows.len(), core, memory, record);
        core = afresh(next);
        at = MicroPc(core.next_fetch.0);
        i += 1;
    }
}

// n padding cycles of the row at next_fetch. The buffer is cut as in `run_live`.
fn run_padding(row: RomRow, core: Core, n: usize, memory: &mut Memory, records: &mut [u64])
    requires { InRange row × (17 * n ≤ length records.old) }
    ensures cursor { whole core memory.new ≡ end (frozen_at row) n (whole core memory.old) }
    ensures records { records.new ≡ flat (recorded (frozen_at row) n (whole core memory.old)) ++ drop (17 * n) records.old }
{
    for i in 0..n {
        let base = RECORD_WORDS * i;
        let (_, rest) = records.split_at_mut(base);
        let (part, _) = rest.split_at_mut(RECORD_WORDS);
        let Some(record) = part.as_mut_array() else {
            unreachable!()
        };
        padding_cycle(row, core, memory, record);
    }
}

// Padding cycles behind the live ones, up to `due` records.
fn pad_rest(stopped: Stopped, due: usize, memory: &mut Memory, records: &mut [u64])
    requires { InRange stopped.row × ((stopped.count ≤ due) × (17 * due ≤ length records.old)) }
    ensures cursor { whole stopped.core memory.new ≡ end (frozen_at stopped.row) (due - stopped.count) (whole stopped.core memory.old) }
    ensures records { records.new ≡ take (17 * stopped.count) records.old ++ (flat (recorded (frozen_at stopped.row) (due - stopped.count) (whole stopped.core memory.old)) ++ drop (17 * due) records.old) }
{
    let base = RECORD_WORDS * stopped.count;
    run_padding(
        stopped.row,
        stopped.core,
        due - stopped.count,
        memory,
        &mut records[base..],
    );
}

// The smallest power of two at least n and 1.
pub(crate) fn next_power_of_two(n: u64) -> u64
    requires { n ≤ 2 ^ 62 }
    ensures { result ≡ next_power_of_two n }
{
    n.next_power_of_two()
}

// How many records a call makes that had so many live cycles.
fn due_of(due: Due, count: usize) -> usize
    requires { count ≤ 2 ^ 62 }
    ensures { result ≡ due_of due count }
{
    match due {
        Due::Exactly(n) => n,
        Due::PowerOfTwo => next_power_of_two(count as u64) as usize,
    }
}

impl From<Cursor> for Core {
    ghost from_gives = { λ c k. k ≡ core_of c };

    fn from(c: Cursor) -> Core {
        Core {
            micro_pc: MicroPc(c.micro_pc.0),
            cycles: c.cycles,
            halted: c.halted,
            output: c.output,
            next_fetch: MicroPc(c.next_fetch.0),
        }
    }
}

// No `From`, which takes one value where these are two.
fn whole_of(k: Core, memory: Memory) -> Cursor
    ensures { result ≡ whole k memory }
{
    let regs = memory.regs;
    let ram = memory.ram;
    Cursor {
        regs,
        ram,
        micro_pc: MicroPc(k.micro_pc.0),
        cycles: k.cycles,
        halted: k.halted,
        output: k.output,
        next_fetch: MicroPc(k.next_fetch.0),
    }
}

// The cycles of every accepted call: live ones, at most `limit`, and then padding up to the records that are due. The arrays
// are copied out of the cursor once and lent to each cycle. This is the one place that calls `run_live`, so that the compiler
// puts that loop here, where the arrays are locals: with a second call they go through pointers, and a live cycle is slower.
pub(crate) fn run_padded(
    rows: &[u64],
    cursor: Cursor,
    limit: usize,
    due: Due,
    records: &mut [u64],
) -> Execution
    requires { Ready (length rows.now) (core_of cursor) limit (length records.old) × Room due limit (length records.old) }
    ensures live { result.live_count ≡ (padded_to due rows.now limit cursor records.old).live_count }
    ensures count { result.record_count ≡ (padded_to due rows.now limit cursor records.old).record_count }
    ensures cursor { result.cursor ≡ (padded_to due rows.now limit cursor records.old).cursor }
    ensures records { records.new ≡ (padded_to due rows.now limit cursor records.old).buffer }
{
    let regs = cursor.regs;
    let ram = cursor.ram;
    let mut memory = Memory { regs, ram };
    let start = Core::from(cursor);
    let stopped = run_live(rows, start, limit, &mut memory, records);
    let count = due_of(due, stopped.count);
    pad_rest(stopped, count, &mut memory, records);
    let after = whole_of(stopped.core, memory);
    Execution {
        live_count: stopped.count as u64,
        record_count: count as u64,
        cursor: after,
    }
}
