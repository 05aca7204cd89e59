// The mean of a report, by a rule of its own.
ghost use Rattle.std.specs.Prelude.{◌≡◌, ◌^◌, ◌<◌, ◌≤◌};
ghost use Rattle.run_report.specs.Mean.{mean_of, MeanLaws};

// The mean in hundredths of so many runs with this sum, to the nearest whole number, a half going up.
#[tactic(auto, unfolding(crate::specs::Mean::half_up))]
pub(crate) fn mean_of(sum: u64, runs: u64) -> u64
    requires { (sum ≤ 2 ^ 48) × (0 < runs) × (runs ≤ 2 ^ 16) }
    ensures { result ≡ mean_of sum runs }
{
    (200 * sum + runs) / (2 * runs)
}

// What is claimed of the mean (specs/Mean.antt). The function does nothing; its contract is the claim.
pub fn mean_laws()
    ensures { MeanLaws }
{}
