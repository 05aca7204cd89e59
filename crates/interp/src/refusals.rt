// Whether a call is accepted: the refusals of document 01's table, lowest number first.
ghost use Rattle.std.specs.Prelude.{◌≡◌, ◌+◌, ◌*◌, ◌^◌, not, ◌&&◌, nat_lt};
ghost use Rattle.refusal_table.specs.Table.{first_met};
ghost use Rattle.interp.specs.Calls.{row_lines, call_lines, refusals, outcome_number};
ghost use Rattle.interp.specs.Code.{wants_segment, length_of};
ghost use Rattle.interp.specs.Execute.{length_lines, execute_refusals};

use crate::run::next_power_of_two;
use crate::{
    Cursor, MAX_EXECUTE_CYCLES, MAX_ROWS, MAX_TOTAL_CYCLES, RECORD_WORDS, Refusal, Request,
};
use expand::MicroPc;

// Refusal 4.
fn is_outside(pc: MicroPc, fetch: MicroPc, count: usize) -> bool
    ensures { result ≡ not (nat_lt pc.0 count && nat_lt fetch.0 count) }
{
    !(pc.0 < count && fetch.0 < count)
}

// Refusal 5. The sum is not made: both numbers are any u64.
fn is_too_long(cycles: u64, request: Request) -> bool
    ensures { result ≡ (wants_segment request && nat_lt (2 ^ 62) (cycles + length_of request)) }
{
    match request {
        Request::Segment(n) => MAX_TOTAL_CYCLES < n || MAX_TOTAL_CYCLES - n < cycles,
        Request::Padding(_) => false,
    }
}

// Refusal 6. The product is not made: n is any u64.
fn is_short(room: usize, n: u64) -> bool
    ensures { result ≡ nat_lt room (17 * n) }
{
    ((room / RECORD_WORDS) as u64) < n
}

// The refusals that rows meet in every call.
fn judge_rows(rows: &[u64]) -> Result<(), Refusal>
    ensures { outcome_number result ≡ first_met (row_lines rows.now) }
{
    if rows.is_empty() {
        return Err(Refusal::NoRows);
    }
    if MAX_ROWS < rows.len() {
        return Err(Refusal::TooManyRows);
    }
    if !expand::is_expansion(rows) {
        return Err(Refusal::NoExpansion);
    }
    Ok(())
}

// The refusals of a segment call or a padding call that its rows do not meet.
fn judge_cycles(count: usize, c: Cursor, request: Request, room: usize) -> Result<(), Refusal>
    ensures { outcome_number result ≡ first_met (call_lines count c (wants_segment request) (length_of request) room) }
{
    if is_outside(c.micro_pc, c.next_fetch, count) {
        return Err(Refusal::OutsideRows);
    }
    if is_too_long(c.cycles, request) {
        return Err(Refusal::TooManyCycles);
    }
    if is_short(room, request.length()) {
        return Err(Refusal::Short);
    }
    Ok(())
}

// The refusals of execute that its rows do not meet.
fn judge_length(max_cycles: u64, room: usize) -> Result<(), Refusal>
    ensures { outcome_number result ≡ first_met (length_lines max_cycles room) }
{
    if MAX_EXECUTE_CYCLES < max_cycles {
        return Err(Refusal::TooManyCycles);
    }
    if is_short(room, next_power_of_two(max_cycles)) {
        return Err(Refusal::Short);
    }
    Ok(())
}

// The refusals of a segment call or a padding call.
pub(crate) fn judge_call(
    rows: &[u64],
    c: Cursor,
    request: Request,
    room: usize,
) -> Result<(), Refusal>
    ensures { outcome_number result ≡ first_met (refusals rows.now c (wants_segment request) (length_of request) room) }
{
    judge_rows(rows)?;
    judge_cycles(rows.len(), c, request, room)
}

// The refusals of execute.
pub(crate) fn judge_execution(rows: &[u64], max_cycles: u64, room: usize) -> Result<(), Refusal>
    ensures { outcome_number result ≡ first_met (execute_refusals rows.now max_cycles room) }
{
    judge_rows(rows)?;
    judge_length(max_cycles, room)
}
