// The last-writer index of a log (document 02, T-02): for each of 64 registers and 256 RAM words, the position of the latest
// record that wrote it. Both calls enter the records into a copy of the index, in one pass that tests their range too, so that a
// refusal has written nothing.
#![tactic(auto)]

ghost use Rattle.std.specs.Prelude.{◌≡◌, ◌+◌, ◌*◌, ◌/◌, ◌%◌, ◌^◌, ◌<◌, ◌≤◌, true, cond, ◌&&◌, ◌++◌, length, take, drop, ◌==◌, nat_lt};
ghost use Rattle.refusal_table.specs.Table.{first_met};
ghost use Rattle.interp.specs.Replay.{word, stored, records_in};
ghost use Rattle.last_writer.specs.Index.{ram_place, entered, indexed, inside, in_range, record_lines, index_refusals, answer_from, built_of, added_of, index_refusal_number, index_outcome_number};
ghost use Rattle.last_writer.specs.Claims.{IndexLaws};

use interp::{Cursor, RECORD_WORDS};

// The places of an index: one for each register, then one for each RAM word.
pub const PLACES: usize = Cursor::REGS + Cursor::RAM_WORDS;

// What a place holds that no record wrote.
pub const NONE: u64 = 0xffff_ffff_ffff_ffff;

// The most records of a joined log.
pub const MAX_RECORDS: u64 = 0x4000_0000_0000_0000;

// The words of a record that say what it writes.
const RD: usize = 5;

const RAM_ADDR: usize = 6;

const PACKED: usize = 16;

// is_store, bit 7 of the flags, which begin at bit 16 of word 16.
const STORE_BIT: u64 = 0x80_0000;

// Why a call is refused.
#[derive(Clone, Copy, Debug, PartialEq, Eq)]
pub enum Refusal {
    // 7: the log is no whole number of records.
    Partial,
    // 8: a record has a register of 64 or more or a RAM word of 256 or more.
    OutOfRange,
    // 5: the records before and those of the log are over MAX_RECORDS together.
    TooManyRecords,
    // 6: the index has fewer than PLACES places.
    Short,
}

// Its number in the papers.
impl From<Refusal> for u64 {
    ghost from_gives = { λ why number. number ≡ index_refusal_number why };

    fn from(why: Refusal) -> u64 {
        match why {
            Refusal::Partial => 7,
            Refusal::OutOfRange => 8,
            Refusal::TooManyRecords => 5,
            Refusal::Short => 6,
        }
    }
}

// ---- one record

#[tactic(auto, unfolding(crate::specs::Index::inside))]
fn is_inside(r: &[u64; RECORD_WORDS]) -> bool
    ensures { result ≡ inside r.now }
{
    r[RD] < Cursor::REGS as u64 && r[RAM_ADDR] < Cursor::RAM_WORDS as u64
}

fn is_store(r: &[u64; RECORD_WORDS]) -> bool
    ensures { result ≡ stored r.now }
{
    r[PACKED] / STORE_BIT % 2 == 1
}

// Puts position `at` into the places that a record writes. The RAM word is read first: after a write to `held` it would be read anew.
fn put(r: &[u64; RECORD_WORDS], at: u64, held: &mut [u64; PLACES])
    requires { (word r.now 5 < 64) × (word r.now 6 < 256) }
    ensures { held.new ≡ entered at r.now held.old }
{
    let word = r[RAM_ADDR] as usize;
    held[r[RD] as usize] = at;
    if is_store(r) {
        held[Cursor::REGS + word] = at;
    }
}

// Enters a record at position `at`; false where it is out of range.
fn enter(r: &[u64; RECORD_WORDS], at: u64, held: &mut [u64; PLACES]) -> bool
    ensures range { result ≡ inside r.now }
    ensures held { (result ≡ true → held.new ≡ entered at r.now held.old) }
{
    if !is_inside(r) {
        return false;
    }
    put(r, at, held);
    true
}

// ---- the calls

// Enters records, the first at position `from`; false, and `held` is of no use, where one is out of range. Two in a turn: so short a
// loop is a fifth slower where its jumps lie badly. For the same reason it is not built into both calls.
#[inline(never)]
fn enter_all(records: &[[u64; RECORD_WORDS]], from: u64, held: &mut [u64; PLACES]) -> bool
    requires { (from ≤ 2 ^ 62) × (length records.now ≤ 2 ^ 60) }
    ensures range { result ≡ in_range records.now }
    ensures held { (result ≡ true → held.new ≡ indexed from records.now held.old) }
{
    let (pairs, rest) = records.as_chunks::<2>();
    for (i, [first, second]) in pairs.iter().enumerate() {
        let at = from + 2 * i as u64;
        if !enter(first, at, held) {
            return false;
        }
        if !enter(second, at + 1, held) {
            return false;
        }
    }
    match rest.first() {
        Some(last) => enter(last, from + 2 * pairs.len() as u64, held),
        None => true,
    }
}

// The refusals of a log that is a whole number of records. The sum of the records is not made: `before` is any u64.
fn judge_records(inside: bool, count: usize, before: u64, room: usize) -> Result<(), Refusal>
    requires { count ≤ 2 ^ 60 }
    ensures { index_outcome_number result ≡ first_met (record_lines inside count before room) }
{
    if !inside {
        return Err(Refusal::OutOfRange);
    }
    if MAX_RECORDS - (count as u64) < before {
        return Err(Refusal::TooManyRecords);
    }
    if room < PLACES {
        return Err(Refusal::Short);
    }
    Ok(())
}

// What a call with so many places of room answers; if it is accepted, the log's records are entered into `held`. Positions begin at
// `before`; where that is over MAX_RECORDS the call is refused, and they begin where no sum can wrap.
fn judge(log: &[u64], before: u64, room: usize, held: &mut [u64; PLACES]) -> Result<(), Refusal>
    ensures number { index_outcome_number result ≡ first_met (index_refusals log.now before room) }
    ensures held { (index_outcome_number result ≡ 0 → held.new ≡ indexed before (records_in log.now) held.old) }
{
    let Some(records) = log_records::records(log) else {
        return Err(Refusal::Partial);
    };
    let inside = enter_all(records, before.min(MAX_RECORDS), held);
    judge_records(inside, records.len(), before, room)
}

// What both calls do, from the index in `held` on.
fn answer(
    log: &[u64],
    before: u64,
    mut held: [u64; PLACES],
    index: &mut [u64],
) -> Result<(), Refusal>
    ensures answer { index_outcome_number result ≡ (answer_from log.now before held index.old).number }
    ensures index { index.new ≡ (answer_from log.now before held index.old).index }
{
    let outcome = judge(log, before, index.len(), &mut held);
    if outcome.is_ok() {
        index[..PLACES].copy_from_slice(&held);
    }
    outcome
}

// The index of a log goes to the first PLACES places of `index`; a refused call leaves it as it was.
#[tactic(auto, unfolding(crate::specs::Index::blank))]
pub fn build(log: &[u64], index: &mut [u64]) -> Result<(), Refusal>
    ensures answer { index_outcome_number result ≡ (built_of log.now index.old).number }
    ensures index { index.new ≡ (built_of log.now index.old).index }
{
    answer(log, 0, [NONE; PLACES], index)
}

// The index that stands first in a buffer; that of no record where the buffer is too short for one, and the call is refused.
fn front(index: &[u64]) -> [u64; PLACES]
    ensures { (320 ≤ length index.now → result ≡ take 320 index.now) }
{
    match index.first_chunk() {
        Some(held) => *held,
        None => [NONE; PLACES],
    }
}

// Adds a segment, with `before` records before it, to the index in `index`; a refused call leaves it as it was.
pub fn add(log: &[u64], before: u64, index: &mut [u64]) -> Result<(), Refusal>
    ensures answer { index_outcome_number result ≡ (added_of log.now before index.old).number }
    ensures index { index.new ≡ (added_of log.now before index.old).index }
{
    answer(log, before, front(index), index)
}

// What is claimed of the index beyond its text (specs/Claims.antt). The function does nothing; its contract is the claim.
pub fn index_laws()
    ensures { IndexLaws }
{}
