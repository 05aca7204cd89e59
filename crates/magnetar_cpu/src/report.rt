// The run report (document 02, T-04).
ghost use Rattle.std.specs.Prelude.{◌≡◌};
ghost use Rattle.run_report.specs.Report.{report_of, line_after};
ghost use Rattle.magnetar_cpu.specs.Words.{left_after};

use crate::ACCEPTED;

// Puts one line of exact figures over many runs first in `line`: how many runs, their live cycles, their records, and the mean live
// count in hundredths, nearest and a half going up; in decimal, parted by commas, with a line feed. `live` and `records` have a count
// for each run. Its length in bytes, at most 51, goes to `length`; the bytes after it stay as lent. Refusals, in the order in which
// they are tested: 9, the lists are of unequal length, or have no runs or more than 65,536; 10, a count of either list is above
// 2^32; 6, `line` is shorter than this line.
#[unsafe(no_mangle)]
pub extern "C" fn magnetar_report(
    live: &[u64],
    records: &[u64],
    line: &mut [u8],
    length: &mut u64,
) -> u64
    ensures answer { result ≡ (report_of live.now records.now line.old).number }
    ensures line { line.new ≡ line_after live.now records.now line.old }
    ensures length { length.new ≡ left_after (report_of live.now records.now line.old).number (report_of live.now records.now line.old).bytes length.old }
{
    match run_report::report(live, records, line) {
        Ok(n) => {
            *length = n as u64;
            ACCEPTED
        }
        Err(why) => u64::from(why),
    }
}
