// Execute on a ROM.
ghost use Rattle.std.specs.Prelude.{◌≡◌};
ghost use Rattle.interp.specs.Execute.{execute_of, execute_told_of, ExecuteLaws};

use crate::refusals::judge_execution;
use crate::run::{Due, run_padded};
use crate::{Cursor, Execution, Refusal};

// Execute on a ROM: from the fresh cursor of the input, live cycles until the machine halts, at most max_cycles, and then
// padding up to a power of two. A refused call leaves `records` as it was and hands back no cursor.
pub fn execute(
    rows: &[u64],
    input: &[u64],
    max_cycles: u64,
    records: &mut [u64],
) -> Result<Execution, Refusal>
    ensures answer { (execute_told_of result).number ≡ (execute_of rows.now input.now max_cycles records.old).number }
    ensures live { (execute_told_of result).live_count ≡ (execute_of rows.now input.now max_cycles records.old).live_count }
    ensures count { (execute_told_of result).record_count ≡ (execute_of rows.now input.now max_cycles records.old).record_count }
    ensures cursor { (execute_told_of result).cursor ≡ (execute_of rows.now input.now max_cycles records.old).cursor }
    ensures records { records.new ≡ (execute_of rows.now input.now max_cycles records.old).buffer }
{
    judge_execution(rows, max_cycles, records.len())?;
    let start = Cursor::start(input);
    Ok(run_padded(rows, start, max_cycles as usize, Due::PowerOfTwo, records))
}

// What is claimed of execute (specs/Execute.antt). The function does nothing; its contract is the claim.
pub fn execute_laws()
    ensures { ExecuteLaws }
{}
