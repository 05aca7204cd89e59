// Numbers as digits, lines of numbers, and a recorder's answer as text. Every line ends in a line feed:
//
//     2,2,5
//     0,0,0,5,0,10,0,0,0,0,0,1,0,5,5,0,327680
//     1,5,0,5,0,32,0,0,0,0,0,1,5,0,5,0,134217728
//
// a line live,records,output and a line of 17 words for each record; or the line refused,number.
#![tactic(auto)]

mod digits;

ghost use Rattle.std.specs.Prelude.{◌≡◌, ◌-◌, ◌/◌, ◌≤◌, min, length, cond, nat_le, Some, None};
ghost use Rattle.lines.specs.Text.{decimal};
ghost use Rattle.lines.specs.Lines.{number_text, line_of, lines_of, answer_text, refused_text, written, fit_of, fitted};
ghost use Rattle.lines.specs.Claims.{Decimal, LineLaws};

use digits::{decimal_length, put_decimal};
pub use digits::{fill_decimal, fill_hex};

// The most records of an answer.
pub const RECORDS: usize = 256;

// The words of so many records.
pub const WORDS: usize = 4352;

// Room for every text: 3 + 256 * 17 words, each of at most 20 digits and the character behind it.
pub const TEXT: usize = 91455;

// The words of a record.
const RECORD_WORDS: usize = 17;

// Each `put_` function puts a text first in `out` and returns its length.

// A number and the character behind it.
fn put_number(n: u64, mark: u8, out: &mut [u8]) -> usize
    requires { length (number_text n mark) ≤ length out.old }
    ensures length { result ≡ length (number_text n mark) }
    ensures text { out.new ≡ written (number_text n mark) out.old }
{
    let digits = put_decimal(n, out);
    out[digits] = mark;
    digits + 1
}

// A line.
fn put_line(words: &[u64], out: &mut [u8]) -> usize
    requires { length (line_of words.now) ≤ length out.old }
    ensures length { result ≡ length (line_of words.now) }
    ensures text { out.new ≡ written (line_of words.now) out.old }
{
    let [front @ .., last] = words else {
        return 0;
    };
    let mut next = 0;
    for word in front {
        next += put_number(*word, b',', &mut out[next..]);
    }
    next + put_number(*last, b'\n', &mut out[next..])
}

// The lines of the records that the words are.
fn put_lines(words: &[u64], out: &mut [u8]) -> usize
    requires { length (lines_of (length words.now / 17) words.now) ≤ length out.old }
    ensures length { result ≡ length (lines_of (length words.now / 17) words.now) }
    ensures text { out.new ≡ written (lines_of (length words.now / 17) words.now) out.old }
{
    let mut next = 0;
    for record in words.chunks_exact(RECORD_WORDS) {
        next += put_line(record, &mut out[next..]);
    }
    next
}

// An answer's text, put first in `out`; its length. A count over 256 is taken as 256.
pub fn put_answer(
    live: u64,
    count: u64,
    output: u64,
    words: &[u64; WORDS],
    out: &mut [u8; TEXT],
) -> usize
    ensures length { result ≡ length (answer_text live (min count 256) output words.now) }
    ensures text { out.new ≡ written (answer_text live (min count 256) output words.now) out.old }
{
    let records = count.min(RECORDS as u64);
    let first = put_line(&[live, records, output], out);
    first + put_lines(&words[..RECORD_WORDS * records as usize], &mut out[first..])
}

// A refusal's text, put first in `out`; its length.
pub fn put_refused(number: u64, out: &mut [u8; TEXT]) -> usize
    ensures length { result ≡ length (refused_text number) }
    ensures text { out.new ≡ written (refused_text number) out.old }
{
    let name = b"refused,";
    out[..name.len()].copy_from_slice(name);
    name.len() + put_number(number, b'\n', &mut out[name.len()..])
}

// What a line leaves of so much room, if it fits. Its length is not summed up: the sum could wrap.
fn room_behind(words: &[u64], room: usize) -> Option<usize>
    ensures { result ≡ cond (nat_le (length (line_of words.now)) room) (Some (room - length (line_of words.now))) None }
{
    let mut left = room;
    for word in words {
        left = left.checked_sub(decimal_length(*word) + 1)?;
    }
    Some(left)
}

// A line, put first in `out` if there is room for it; its length.
pub fn fit_line(words: &[u64], out: &mut [u8]) -> Option<usize>
    ensures length { result ≡ fit_of (line_of words.now) out.old }
    ensures text { out.new ≡ fitted (line_of words.now) out.old }
{
    room_behind(words, out.len())?;
    Some(put_line(words, out))
}

// What makes `decimal` the decimal digits (specs/Claims.antt). The function does nothing; its contract is the claim.
pub fn decimal_laws()
    ensures { Decimal }
{}

// What makes `line_of` a line of its words.
pub fn line_laws()
    ensures { LineLaws }
{}
