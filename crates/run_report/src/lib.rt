// One line of exact figures over many runs (document 02, T-04): how many runs, their live cycles, their records, and the mean live
// count in hundredths.
#![tactic(auto)]

mod mean;

ghost use Rattle.std.specs.Prelude.{◌≡◌, ◌≤◌, ◌||◌, false, cond, None, Some, length, sum};
ghost use Rattle.run_report.specs.Report.{figures_of, bad_runs, bad_count, report_refusal_number, report_told_of, report_of, line_after};
ghost use Rattle.run_report.specs.Claims.{ReportLaws};

pub use mean::mean_laws;
use mean::mean_of;

// The most runs of a report.
pub const MAX_RUNS: usize = 65_536;

// The largest count of a run.
pub const MAX_COUNT: u64 = 0x1_0000_0000;

// The bytes of the longest line.
pub const REPORT_BYTES: usize = 51;

// Why a report is refused.
#[derive(Clone, Copy, Debug, PartialEq, Eq)]
pub enum Refusal {
    // 9: the lists are of unequal length, or have no runs or more than MAX_RUNS.
    BadRuns,
    // 10: a count of either list is above MAX_COUNT.
    BadCount,
    // 6: the buffer is shorter than the line.
    Short,
}

// Its number in the papers.
impl From<Refusal> for u64 {
    ghost from_gives = { λ why number. number ≡ report_refusal_number why };

    fn from(why: Refusal) -> u64 {
        match why {
            Refusal::BadRuns => 9,
            Refusal::BadCount => 10,
            Refusal::Short => 6,
        }
    }
}

#[tactic(auto, unfolding(crate::specs::Report::bad_runs))]
fn are_bad_runs(live: &[u64], records: &[u64]) -> bool
    ensures { result ≡ bad_runs live.now records.now }
{
    live.len() != records.len() || live.is_empty() || MAX_RUNS < live.len()
}

// The sum of the counts of at most MAX_RUNS runs, or none where one is above MAX_COUNT. A list is read once, and to its end: the loop
// takes several counts at a time if nothing ends it early. The sum wraps only where a count is too large, and it is of no use then.
fn sum_of(counts: &[u64]) -> Option<u64>
    requires { length counts.now ≤ 65536 }
    ensures { result ≡ cond (bad_count counts.now) None (Some (sum counts.now)) }
{
    let mut sum: u64 = 0;
    let mut is_bad = false;
    for count in counts {
        sum = sum.wrapping_add(*count);
        is_bad |= MAX_COUNT < *count;
    }
    if is_bad { None } else { Some(sum) }
}

// The figures of lists whose number of runs is not refused, or none where a count is above MAX_COUNT.
fn figures_of(live: &[u64], records: &[u64]) -> Option<[u64; 4]>
    requires { bad_runs live.now records.now ≡ false }
    ensures { result ≡ cond (bad_count live.now || bad_count records.now) None (Some (figures_of live.now records.now)) }
{
    let runs = live.len() as u64;
    let live_sum = sum_of(live)?;
    let record_sum = sum_of(records)?;
    Some([runs, live_sum, record_sum, mean_of(live_sum, runs)])
}

// Puts the line first in the buffer and answers its bytes; a refused call leaves the buffer as it was.
#[tactic(auto, unfolding(crate::specs::Report::report_refusal_of))]
pub fn report(live: &[u64], records: &[u64], line: &mut [u8]) -> Result<usize, Refusal>
    ensures answer { report_told_of result ≡ report_of live.now records.now line.old }
    ensures line { line.new ≡ line_after live.now records.now line.old }
{
    if are_bad_runs(live, records) {
        return Err(Refusal::BadRuns);
    }
    let figures = figures_of(live, records).ok_or(Refusal::BadCount)?;
    lines::fit_line(&figures, line).ok_or(Refusal::Short)
}

// What is claimed of a report beyond its text (specs/Claims.antt). The function does nothing; its contract is the claim.
pub fn report_laws()
    ensures { ReportLaws }
{}
