// The program trace: it reads its input, answers it and writes the answer's text.
#![tactic(auto)]

use std::io::Print;

// Reads the input, and answers in one write. It reads one byte more than an input may have: one that
// is too long is refused without reading it all.
fn main(rt: HostRuntime) {
    let mut bytes = [0u8; trace_answer::MAX_BYTES + 1];
    let mut text = [0u8; lines::TEXT];
    let n = match input::fill(&mut rt.stdin(), &mut bytes) {
        Ok(n) => n,
        Err(broken) => return input::fail(rt.stderr(), b"standard input", broken.why),
    };
    let made = trace_answer::answer(&bytes[..n], &mut text);
    if let Err(why) = rt.stdout().write_all(&text[..made]) {
        input::fail(rt.stderr(), b"standard output", why);
    }
}
