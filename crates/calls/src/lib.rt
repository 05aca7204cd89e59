// Takes a line of a list of calls apart: a letter and then numbers in lower-case hexadecimal digits,
// without leading zeros and with a single space before each.
#![tactic(auto)]

ghost use Rattle.std.specs.Prelude.{◌≡◌, ◌<◌, ◌≤◌, IfSome, [], length, drop};
ghost use Rattle.std.specs.Option.{option_map};
ghost use Rattle.calls.specs.Parse.{digits_from, spaced_number, numbers_from, items_of, packed, parsed, values_of, is_line, place_of};

use arrayvec::ArrayVec;
use listing::hex_value;

// The most numbers of a line.
pub const NUMBERS: usize = 17;

// A letter and the numbers behind it; none, where they have another form. An empty line has the letter
// 0, and no `None` stands for it: no list has a line of that letter, so it is told like any other line
// that does not belong where it stands.
#[derive(Clone, Copy)]
pub struct Line {
    pub letter: u8,
    pub numbers: Option<Numbers>,
}

// The numbers of a line, in the first places of an array, so that a line is copied like its letter.
#[derive(Clone, Copy)]
pub struct Numbers {
    count: usize,
    places: [u64; NUMBERS],
}

// A number of a line, and the place behind it.
#[derive(Clone, Copy)]
struct Number {
    value: u64,
    after: usize,
}

impl Numbers {
    pub fn of(values: &ArrayVec<u64, NUMBERS>) -> Numbers
        ensures packed { result ≡ packed values.now }
        ensures same { items_of result ≡ values.now.items }
    {
        let values = values.as_slice();
        let mut places = [0; NUMBERS];
        places[..values.len()].copy_from_slice(values);
        Numbers {
            count: values.len(),
            places,
        }
    }

    // `of` counts no more places than there are; `min` spares the type an invariant.
    pub fn as_slice(&self) -> &[u64]
        ensures { result.now ≡ items_of self.now }
    {
        &self.places[..self.count.min(NUMBERS)]
    }
}

impl Line {
    // The numbers as a slice, so that a `match` tells how many there are.
    pub fn values(&self) -> Option<&[u64]>
        ensures { option_map (λ v. v.now) result ≡ values_of self.now }
    {
        self.numbers.as_ref().map(|numbers| numbers.as_slice())
    }
}

// The number that the digits from `at` on give, up to a character that is none.
fn digits_at(line: &[u8], at: usize) -> Option<Number>
    requires { at ≤ length line.now }
    ensures number { result ≡ digits_from 0 at (drop at line.now) }
    ensures inside { IfSome result (λ n. (at ≤ n.after) × (n.after ≤ length line.now)) }
{
    let mut value: u64 = 0;
    for (i, c) in line[at..].iter().enumerate() {
        let Some(d) = hex_value(*c) else {
            return Some(Number {
                value,
                after: at + i,
            });
        };
        if value >= 0x1000_0000_0000_0000 {
            return None;
        }
        value = value * 16 + d as u64;
    }
    Some(Number {
        value,
        after: line.len(),
    })
}

// The number behind the space at `at`. Only 0 begins with the digit 0.
fn number_at(line: &[u8], at: usize) -> Option<Number>
    requires { at ≤ length line.now }
    ensures number { result ≡ spaced_number at (drop at line.now) }
    ensures inside { IfSome result (λ n. (at < n.after) × (n.after ≤ length line.now)) }
{
    let [space, first, ..] = &line[at..] else {
        return None;
    };
    if *space != b' ' {
        return None;
    }
    hex_value(*first)?;
    let number = digits_at(line, at + 1)?;
    if *first == b'0' && number.after != at + 2 {
        return None;
    }
    Some(number)
}

// The numbers behind the letter of a line.
fn numbers_of(line: &[u8]) -> Option<ArrayVec<u64, NUMBERS>>
    requires { 0 < length line.now }
    ensures { result ≡ numbers_from 17 line.now [] 1 }
{
    let mut values = ArrayVec::new();
    let mut at = 1;
    // A `while`, since a number says where the next one begins: a step has no fixed size.
    while at < line.len() {
        let number = number_at(line, at)?;
        if values.is_full() {
            return None;
        }
        values.push(number.value);
        at = number.after;
    }
    Some(values)
}

// The line that some bytes are, without the line feed.
#[tactic(auto, using(crate::proofs::Turns::parsed_from))]
pub fn line_of(bytes: &[u8]) -> Line
    ensures { result ≡ parsed bytes.now }
{
    let [letter, ..] = bytes else {
        return Line {
            letter: 0,
            numbers: None,
        };
    };
    Line {
        letter: *letter,
        numbers: numbers_of(bytes).map(|numbers| Numbers::of(&numbers)),
    }
}

// Whether a line has this letter and so many numbers. One of another form counts as one of NUMBERS + 1.
pub fn is_line(line: &Line, letter: u8, count: usize) -> bool
    ensures { result ≡ is_line line.now letter count }
{
    line.letter == letter && line.values().map_or(NUMBERS + 1, |values| values.len()) == count
}

// The place of the cell that a line of `count` numbers names first, a register after the letter
// `register` and a RAM word after `word`. The number of a line that has none is 0.
pub fn place_of(line: &Line, register: u8, word: u8, count: usize) -> Option<usize>
    ensures place { result ≡ place_of line.now register word count }
    ensures bound { IfSome result (λ p. p < 320) }
{
    let i = match line.values() {
        Some([i, ..]) => *i,
        _ => 0,
    };
    if is_line(line, register, count) && i < 64 {
        return Some(i as usize);
    }
    if is_line(line, word, count) && i < 256 {
        return Some(i as usize + 64);
    }
    None
}
