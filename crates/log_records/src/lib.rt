// A log taken as records, for the crates that read logs.
#![tactic(auto)]

ghost use Rattle.std.specs.Prelude.{◌≡◌, IfSome, ◌≤◌, ◌^◌, length};
ghost use Rattle.std.specs.Option.{option_map};
ghost use Rattle.log_records.specs.Records.{whole_records};

use interp::RECORD_WORDS;

// The records of a log; none where it is no whole number of them.
pub fn records(log: &[u64]) -> Option<&[[u64; RECORD_WORDS]]>
    ensures records { option_map (λ r. r.now) result ≡ whole_records log.now }
    ensures few { IfSome result (λ r. length r.now ≤ 2 ^ 60) }
{
    let (records, rest) = log.as_chunks();
    if rest.is_empty() { Some(records) } else { None }
}
