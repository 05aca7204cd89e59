// Writes the listing line of each word of standard input, whose bytes come lowest first.
#![tactic(auto)]

ghost use Rattle.std.specs.Prelude.{◌<◌, ◌^◌};

use std::io;
use std::io::{Print, Stderr, Stdin, Stdout};

// Writes the lines of the whole words of `bytes`, or fails where one cannot be written.
fn write_lines(out: Stdout, bytes: &[u8]) -> io::Result<()> {
    let (words, _) = bytes.as_chunks::<4>();
    for word in words {
        let line = listing::word_line_of(listing::word_le(*word));
        out.write_all(&line)?;
    }
    Ok(())
}

// Says so where the input ends `left` bytes into a word.
fn tell_end(err: Stderr, left: usize, words: u64) -> io::Result<()> {
    if left == 0 {
        return Ok(());
    }
    println!(err; "input ends inside a word: {left} bytes after {words} words")
}

// Lists the next 1,024 words, after `words` of them, and answers whether to go on.
fn list_part(reader: &mut Stdin, out: Stdout, err: Stderr, words: u64) -> bool
    requires { words < 2 ^ 60 }
{
    let mut part = [0u8; 4096];
    let got = input::fill(reader, &mut part);
    let n = match got {
        Ok(n) => n,
        Err(broken) => {
            input::fail(err, b"standard input", broken.why);
            broken.count
        }
    };
    if let Err(why) = write_lines(out, &part[..n]) {
        input::fail(err, b"standard output", why);
        return false;
    }
    if got.is_ok() && n < part.len() {
        // There is no place to tell that this fails.
        let _ = tell_end(err, n % 4, words + n as u64 / 4);
    }
    got.is_ok() && n == part.len()
}

// A proved loop has to end, and nothing says that the input does: the bound is one that no run
// reaches.
fn main(rt: HostRuntime) {
    let mut reader = rt.stdin();
    for part in 0..1u64 << 50 {
        if !list_part(&mut reader, rt.stdout(), rt.stderr(), part * 1024) {
            break;
        }
    }
}
