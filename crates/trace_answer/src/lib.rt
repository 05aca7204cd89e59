// What the program trace answers to its input. The input is little-endian u32s: max_cycles, k, k input words of two u32s
// each, low half first, and the program. The answer is a text of the crate lines.
#![tactic(auto)]

ghost use Rattle.std.specs.Prelude.{◌≡◌, ◌+◌, ◌*◌, ◌/◌, ◌≤◌, ◌++◌, length, drop, IfOk};
ghost use Rattle.expand.specs.Expand.{expansion_of};
ghost use Rattle.interp.specs.Execute.{execute_of};
ghost use Rattle.lines.specs.Lines.{written};
ghost use Rattle.trace_answer.specs.Trace.{word_at, words_from, pairs_of, malformed, run_of, told_of, text_of, trace_of};

use interp::Execution;

// The most bytes of an input.
pub const MAX_BYTES: usize = 4096;

// The largest max_cycles, so the most records too.
pub const MAX_TRACE_CYCLES: u32 = 256;

// The most words of an input.
const WORDS: usize = 1024;

// The words of an input before its k input words: max_cycles and k.
const HEAD: usize = 2;

// The most input words, of two words each.
const INPUTS: usize = 511;

// The most words of a program.
const PROGRAM: usize = 1022;

// The most rows of a program, six a word.
const ROWS: usize = 6132;

// ---- the parts of an input
//
// The loops below write by place: of what is written through a zip with `iter_mut` a proof knows nothing.

// Word i.
fn word_at(bytes: &[u8], i: usize) -> u32
    requires { 4 * i + 4 ≤ length bytes.now }
    ensures { result ≡ word_at bytes.now i }
{
    u32::from_le_bytes(bytes.as_chunks::<4>().0[i])
}

// Whether the input is refused before anything runs. k is any u32, so its bytes are counted as a u64.
fn is_malformed(bytes: &[u8]) -> bool
    ensures { result ≡ malformed bytes.now }
{
    let n = bytes.len();
    if n % 4 != 0 || n < 8 || MAX_BYTES < n {
        return true;
    }
    (n as u64) < 8 + 8 * u64::from(word_at(bytes, 1)) || MAX_TRACE_CYCLES < word_at(bytes, 0)
}

// Puts the words of an input first in `words`.
fn fill_words(bytes: &[u8], words: &mut [u32])
    requires { length bytes.now / 4 ≤ length words.old }
    ensures { words.new ≡ words_from (length bytes.now / 4) 0 bytes.now ++ drop (length bytes.now / 4) words.old }
{
    for (i, word) in bytes.as_chunks::<4>().0.iter().enumerate() {
        words[i] = u32::from_le_bytes(*word);
    }
}

// Puts the input words that every two words are first in `input`.
fn fill_input(words: &[u32], input: &mut [u64])
    requires { length words.now / 2 ≤ length input.old }
    ensures { input.new ≡ pairs_of words.now ++ drop (length words.now / 2) input.old }
{
    for (i, [low, high]) in words.as_chunks::<2>().0.iter().enumerate() {
        input[i] = u64::from(*low) + (u64::from(*high) << 32);
    }
}

// ---- the text

// Expands the program and executes its rows: the execution, or the number of the refusal, which is all that is told of one.
fn run(
    program: &[u32],
    input: &[u64],
    max: u64,
    records: &mut [u64; lines::WORDS],
) -> Result<Execution, u64>
    requires { (length program.now ≤ 1022) × (max ≤ 256) }
    ensures text { text_of result records.new ≡ told_of (execute_of (expansion_of program.now) input.now max records.old) }
    ensures few { IfOk result (λ done. done.record_count ≤ 256) }
{
    let mut rows = [0u64; ROWS];
    let mut starts = [0u64; PROGRAM];
    let count = expand::expand_program(program, &mut rows, &mut starts)?;
    Ok(interp::execute(&rows[..count], input, max, records)?)
}

// Puts the text of a program's run.
fn put_run(program: &[u32], input: &[u64], max: u64, out: &mut [u8; lines::TEXT]) -> usize
    requires { (length program.now ≤ 1022) × (max ≤ 256) }
    ensures length { result ≡ length (told_of (run_of (expansion_of program.now) input.now max)) }
    ensures text { out.new ≡ written (told_of (run_of (expansion_of program.now) input.now max)) out.old }
{
    let mut records = [0u64; lines::WORDS];
    match run(program, input, max, &mut records) {
        Err(number) => lines::put_refused(number, out),
        Ok(done) => {
            lines::put_answer(
                done.live_count,
                done.record_count,
                done.cursor.output,
                &records,
                out,
            )
        }
    }
}

// The answer's text, put first in `out`; its length.
pub fn answer(bytes: &[u8], out: &mut [u8; lines::TEXT]) -> usize
    ensures length { result ≡ length (trace_of bytes.now) }
    ensures text { out.new ≡ written (trace_of bytes.now) out.old }
{
    if is_malformed(bytes) {
        return lines::put_refused(0, out);
    }
    let mut words = [0u32; WORDS];
    fill_words(bytes, &mut words);
    let max = u64::from(words[0]);
    let k = words[1] as usize;
    let (head, program) = words[..bytes.len() / 4].split_at(HEAD + 2 * k);
    let mut input = [0u64; INPUTS];
    fill_input(&head[HEAD..], &mut input);
    put_run(program, &input[..k], max, out)
}
