// The last-writer index (document 02, T-02).
ghost use Rattle.std.specs.Prelude.{◌≡◌};
ghost use Rattle.last_writer.specs.Index.{built_of, added_of};

use crate::ACCEPTED;

// Writes the index of a log to the first 320 places of `index`: 64 registers and then 256 RAM words, each the position from 0 of
// the latest record that wrote it, or 2^64 - 1 where none did. Refusals, in the order in which they are tested: 7, the log is no
// whole number of records; 8, a record has a register of 64 or more or a RAM word of 256 or more; 5, there are more than 2^62
// records, which no log in memory has; 6, `index` has fewer than 320 places.
#[unsafe(no_mangle)]
pub extern "C" fn magnetar_index_build(log: &[u64], index: &mut [u64]) -> u64
    ensures answer { result ≡ (built_of log.now index.old).number }
    ensures index { index.new ≡ (built_of log.now index.old).index }
{
    match last_writer::build(log, index) {
        Ok(()) => ACCEPTED,
        Err(why) => u64::from(why),
    }
}

// Adds a segment to an index, with `before` records before it: a place that the segment writes gets `before` and the position of
// the latest record that does, any other stays. Refusals and their order are those of magnetar_index_build; 5 counts `before` too.
#[unsafe(no_mangle)]
pub extern "C" fn magnetar_index_add(log: &[u64], before: u64, index: &mut [u64]) -> u64
    ensures answer { result ≡ (added_of log.now before index.old).number }
    ensures index { index.new ≡ (added_of log.now before index.old).index }
{
    match last_writer::add(log, before, index) {
        Ok(()) => ACCEPTED,
        Err(why) => u64::from(why),
    }
}
