// The C interface over plain words and bytes. A slice is a pointer and a length, an array a pointer: not null and aligned, also
// where the length is 0; what a call writes overlaps nothing else lent to it. Where a call can be refused, 0 is accepted and any other
// number a refusal of the papers, after which nothing behind any pointer has changed.
#![tactic(auto)]

mod dispatcher;
mod index;
mod report;

ghost use Rattle.std.specs.Prelude.{◌≡◌, ◌+◌, ◌≤◌, length, drop};
ghost use Rattle.std.proofs.Math.Seq.{paste};
ghost use Rattle.expand.specs.Expand.{expand_answer_of, rows_after, starts_after, is_expansion};
ghost use Rattle.interp.specs.Values.{bool_word};
ghost use Rattle.interp.specs.Machine.{start_of};
ghost use Rattle.interp.specs.Calls.{segment, padded, call_of};
ghost use Rattle.interp.specs.Calls as calls;
ghost use Rattle.interp.specs.Execute.{execute_of};
ghost use Rattle.interp.specs.Laws.{uncounted};
ghost use Rattle.checkpoint.specs.Checkpoint.{cursor_at};
ghost use Rattle.magnetar_cpu.specs.Words.{left_after, count_after, live_after, record_count_after};
ghost use Rattle.magnetar_cpu.specs.Image.{image_words, cursor_of, image_of, same_images, image_after, executed_image};
ghost use Rattle.magnetar_cpu.specs.Claims.{ImageLaws};

use checkpoint::Checkpoint;
pub use dispatcher::dispatcher_laws;
use expand::MicroPc;
use interp::{Cursor, Request};

// The places of a cursor's numbers in its image, behind its registers and RAM. Any halted word but 0 is a halted machine; 0
// or 1 is written.
const MICRO_PC: usize = Cursor::REGS + Cursor::RAM_WORDS;

const CYCLES: usize = MICRO_PC + 1;

const HALTED: usize = MICRO_PC + 2;

const OUTPUT: usize = MICRO_PC + 3;

const NEXT_FETCH: usize = MICRO_PC + 4;

// The words of an image.
const IMAGE_WORDS: usize = MICRO_PC + 5;

// The number of a call that is not refused.
const ACCEPTED: u64 = 0;

// Expands a program: its row words go to the first places of `rows`, the position of each word's first row to those of
// `starts`, and the count of rows to `count`. 1: no words; 2: more than 1,048,576 words; 6: `rows` is shorter than the
// expansion, or `starts` than the program.
#[unsafe(no_mangle)]
pub extern "C" fn magnetar_expand(
    program: &[u32],
    rows: &mut [u64],
    starts: &mut [u64],
    count: &mut u64,
) -> u64
    ensures answer { result ≡ (expand_answer_of program.now rows.old starts.old).number }
    ensures count { count.new ≡ count_after (expand_answer_of program.now rows.old starts.old) count.old }
    ensures rows { rows.new ≡ rows_after program.now rows.old starts.old }
    ensures starts { starts.new ≡ starts_after program.now rows.old starts.old }
{
    match expand::expand_program(program, rows, starts) {
        Ok(n) => {
            *count = n as u64;
            ACCEPTED
        }
        Err(why) => u64::from(why),
    }
}

// 1 if the rows are the expansion of a program of any length, else 0.
#[unsafe(no_mangle)]
pub extern "C" fn magnetar_is_expansion(rows: &[u64]) -> u64
    ensures { result ≡ bool_word (is_expansion rows.now) }
{
    u64::from(expand::is_expansion(rows))
}

// ---- cursors

// The checkpoint of an image: every word but cycles. Registers and RAM are lent where they lie.
#[tactic(auto, unfolding(crate::specs::Image::cursor_of, checkpoint::specs::Checkpoint::cursor_at, interp::specs::Laws::uncounted))]
fn read_checkpoint(image: &[u64; IMAGE_WORDS]) -> Checkpoint<'_>
    ensures { cursor_at result ≡ uncounted (cursor_of image.now) }
{
    Checkpoint {
        micro_pc: MicroPc(image[MICRO_PC] as usize),
        halted: image[HALTED] != 0,
        output: image[OUTPUT],
        next_fetch: MicroPc(image[NEXT_FETCH] as usize),
        regs: &image[..Cursor::REGS],
        ram: &image[Cursor::REGS..MICRO_PC],
    }
}

// The cursor of an image. Neither type is of this crate, so that it has no `From`.
fn read_cursor(image: &[u64; IMAGE_WORDS]) -> Cursor
    ensures { result ≡ cursor_of image.now }
{
    let counted = read_checkpoint(image);
    let mut regs = [0u64; Cursor::REGS];
    regs.copy_from_slice(counted.regs);
    let mut ram = [0u64; Cursor::RAM_WORDS];
    ram.copy_from_slice(counted.ram);
    Cursor {
        regs,
        ram,
        micro_pc: counted.micro_pc,
        cycles: image[CYCLES],
        halted: counted.halted,
        output: counted.output,
        next_fetch: counted.next_fetch,
    }
}

// Writes the image of a cursor.
#[tactic(auto, unfolding(crate::specs::Image::image_of))]
fn write_cursor(c: Cursor, image: &mut [u64; IMAGE_WORDS])
    ensures { image.new ≡ image_of c }
{
    image[..Cursor::REGS].copy_from_slice(&c.regs);
    image[Cursor::REGS..MICRO_PC].copy_from_slice(&c.ram);
    let numbers = [
        c.micro_pc.0 as u64,
        c.cycles,
        c.halted as u64,
        c.output,
        c.next_fetch.0 as u64,
    ];
    image[MICRO_PC..].copy_from_slice(&numbers);
}

// Runs a call on the cursor of an image, and answers its number. The cursor after an accepted one goes to `image`; a refused
// one leaves `image` as it was.
fn run_call(
    rows: &[u64],
    image: &mut [u64; IMAGE_WORDS],
    request: Request,
    records: &mut [u64],
) -> u64
    ensures answer { result ≡ (calls.answer_of rows.now (cursor_of image.old) (call_of request records.old)).number }
    ensures cursor { image.new ≡ image_after (calls.answer_of rows.now (cursor_of image.old) (call_of request records.old)) image.old }
    ensures records { records.new ≡ (calls.answer_of rows.now (cursor_of image.old) (call_of request records.old)).buffer }
{
    let before = read_cursor(image);
    let answer = interp::run_call(rows, before, request, records);
    match answer.outcome {
        Ok(()) => {
            write_cursor(answer.cursor, image);
            ACCEPTED
        }
        Err(why) => u64::from(why),
    }
}

// Writes the fresh cursor to `cursor`: all words 0, but RAM holds the first 256 words of `input`, and 0 after them. It
// refuses nothing.
#[unsafe(no_mangle)]
pub extern "C" fn magnetar_start(input: &[u64], cursor: &mut [u64; IMAGE_WORDS])
    ensures { cursor.new ≡ image_of (start_of input.now) }
{
    write_cursor(Cursor::start(input), cursor);
}

// The segment call: `length` cycles, live until the machine halts, then padding. Their records, 17 words each, go to the
// first places of `records`, and the cursor after them to `cursor`. 1: no rows; 2: more than 6,291,456 rows; 3: the rows
// are not the expansion of a program; 4: micro_pc or next_fetch is no row; 5: cycles and `length` are over 2^62 together;
// 6: `records` has fewer than 17 words a cycle.
#[unsafe(no_mangle)]
pub extern "C" fn magnetar_segment(
    rows: &[u64],
    cursor: &mut [u64; IMAGE_WORDS],
    length: u64,
    records: &mut [u64],
) -> u64
    ensures answer { result ≡ (calls.answer_of rows.now (cursor_of cursor.old) (segment length records.old)).number }
    ensures cursor { cursor.new ≡ image_after (calls.answer_of rows.now (cursor_of cursor.old) (segment length records.old)) cursor.old }
    ensures records { records.new ≡ (calls.answer_of rows.now (cursor_of cursor.old) (segment length records.old)).buffer }
{
    run_call(rows, cursor, Request::Segment(length), records)
}

// The padding call: `length` padding cycles at row next_fetch, also on a live machine. Records, cursor and refusals are
// those of the segment call, but 5 is none of them.
#[unsafe(no_mangle)]
pub extern "C" fn magnetar_padding(
    rows: &[u64],
    cursor: &mut [u64; IMAGE_WORDS],
    length: u64,
    records: &mut [u64],
) -> u64
    ensures answer { result ≡ (calls.answer_of rows.now (cursor_of cursor.old) (padded length records.old)).number }
    ensures cursor { cursor.new ≡ image_after (calls.answer_of rows.now (cursor_of cursor.old) (padded length records.old)) cursor.old }
    ensures records { records.new ≡ (calls.answer_of rows.now (cursor_of cursor.old) (padded length records.old)).buffer }
{
    run_call(rows, cursor, Request::Padding(length), records)
}

// Execute: from the fresh cursor of `input`, live cycles until the machine halts, at most `max_cycles`, and then padding up to
// the smallest power of two that is at least 1 and the live count. The records go to the first places of `records`, the cursor
// after them to `cursor`, the live count to `live` and the count of records to `record_count`. 1: no rows; 2: more than
// 6,291,456 rows; 3: the rows are not the expansion of a program; 5: `max_cycles` is over 2^32; 6: `records` has fewer than 17
// words for each record that `max_cycles` live cycles would need.
#[unsafe(no_mangle)]
pub extern "C" fn magnetar_execute(
    rows: &[u64],
    input: &[u64],
    max_cycles: u64,
    records: &mut [u64],
    cursor: &mut [u64; IMAGE_WORDS],
    live: &mut u64,
    record_count: &mut u64,
) -> u64
    ensures answer { result ≡ (execute_of rows.now input.now max_cycles records.old).number }
    ensures live { live.new ≡ live_after (execute_of rows.now input.now max_cycles records.old) live.old }
    ensures count { record_count.new ≡ record_count_after (execute_of rows.now input.now max_cycles records.old) record_count.old }
    ensures cursor { cursor.new ≡ executed_image (execute_of rows.now input.now max_cycles records.old) cursor.old }
    ensures records { records.new ≡ (execute_of rows.now input.now max_cycles records.old).buffer }
{
    match interp::execute(rows, input, max_cycles, records) {
        Ok(ran) => {
            write_cursor(ran.cursor, cursor);
            *live = ran.live_count;
            *record_count = ran.record_count;
            ACCEPTED
        }
        Err(why) => u64::from(why),
    }
}

// ---- images

// 1 if the two cursors are the same checkpoint, else 0: every word but cycles agrees. Any two halted words but 0 agree.
#[unsafe(no_mangle)]
pub extern "C" fn magnetar_same(a: &[u64; IMAGE_WORDS], b: &[u64; IMAGE_WORDS]) -> u64
    ensures { result ≡ bool_word (same_images a.now b.now) }
{
    let first = read_checkpoint(a);
    let second = read_checkpoint(b);
    u64::from(checkpoint::same(first, second))
}

// The words of a cursor's image, for a caller who compares them with his header.
#[unsafe(no_mangle)]
pub extern "C" fn magnetar_cursor_words() -> u64
    ensures { result ≡ image_words }
{
    IMAGE_WORDS as u64
}

// What is claimed of images (specs/Claims.antt). The function does nothing; its contract is the claim.
pub fn image_laws()
    ensures { ImageLaws }
{}
