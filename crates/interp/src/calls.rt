// The segment call and the padding call, and what is claimed of lists of them.
ghost use Rattle.std.specs.Prelude.{◌≡◌};
ghost use Rattle.interp.specs.Calls.{call_of, answer_of, outcome_number};
ghost use Rattle.interp.specs.Code.{limit_of};
ghost use Rattle.interp.specs.Demand3.{Demand3};

use crate::refusals::judge_call;
use crate::run::{Due, run_padded};
use crate::{Answer, Cursor, Request};

// The most live cycles of a call: a padding call has none.
fn live_limit(request: Request) -> u64
    ensures { result ≡ limit_of request }
{
    match request {
        Request::Segment(n) => n,
        Request::Padding(_) => 0,
    }
}

// The segment call or the padding call. The records of its n cycles go to the first 17 n words of `records`. A refused call
// leaves `records` as it was and returns the cursor that it got. The padding call cannot meet refusal 5.
pub fn run_call(rows: &[u64], cursor: Cursor, request: Request, records: &mut [u64]) -> Answer
    ensures answer { outcome_number result.outcome ≡ (answer_of rows.now cursor (call_of request records.old)).number }
    ensures cursor { result.cursor ≡ (answer_of rows.now cursor (call_of request records.old)).cursor }
    ensures records { records.new ≡ (answer_of rows.now cursor (call_of request records.old)).buffer }
{
    match judge_call(rows, cursor, request, records.len()) {
        Err(why) => Answer {
            outcome: Err(why),
            cursor,
        },
        Ok(()) => {
            let limit = live_limit(request) as usize;
            let due = Due::Exactly(request.length() as usize);
            let ran = run_padded(rows, cursor, limit, due, records);
            Answer {
                outcome: Ok(()),
                cursor: ran.cursor,
            }
        }
    }
}

// Demand 3, for every list of calls (specs/Demand3.antt). The function does nothing; its contract is the claim.
pub fn demand_3()
    ensures { Demand3 }
{}
