// Input in full parts, where a read that fails is not taken for the end, and files that arguments
// name.
#![tactic(auto)]

ghost use Rattle.std.specs.Prelude.{◌≡◌, ◌<◌, ◌≤◌, IfOk, IfErr, length, take};
ghost use Rattle.std.specs.Io.KnownBytes.{Consumes, IsAtEnd};
ghost use Rattle.input.specs.Input.{IsPrefixLen, IsTold, count_of, outcome_of};

use std::env::{Env, FillError};
use std::io::{ErrorKind, Print, Read, Stderr, Write};
use std::rt::Files;
use std::{fs, io, str};

// A read that failed: how many bytes came before it, and why it failed.
#[derive(Clone, Copy)]
pub struct Broken {
    pub count: usize,
    pub why: io::Error,
}

impl From<Broken> for io::Error {
    ghost from_gives = { λ b e. e ≡ b.why };

    fn from(b: Broken) -> io::Error {
        b.why
    }
}

// What a read into `buf` that answered `got` comes to.
fn outcome(got: io::Result<usize>, buf: &[u8]) -> Result<usize, Broken>
    ensures prefix_len { IsPrefixLen (count_of result) buf.now }
    ensures value { result ≡ outcome_of got (length buf.now) }
{
    match got {
        Ok(n) => Ok(n.min(buf.len())),
        Err(why) => Err(Broken { count: 0, why }),
    }
}

fn read_once<R: Read>(reader: &mut R, buf: &mut [u8]) -> Result<usize, Broken>
    ensures prefix_len { IsPrefixLen (count_of result) buf.new }
    ensures bytes { Consumes (R.remaining reader.old) (R.remaining reader.new) (take (count_of result) buf.new) }
    ensures end { IfOk result (λ n. n ≡ 0 → 0 < length buf.new → IsAtEnd (R.remaining reader.new)) }
{
    let got = reader.read(buf);
    outcome(got, buf)
}

// Reads until `buf` is full or the input ends, and answers how many bytes came; a read that fails is an
// `Err`, with how many came before it. Of a reader whose bytes are known, these stand in `buf`, and an
// `Ok` of fewer than it holds comes only at their end. The turns go on by as much as a read gave.
pub fn fill<R: Read>(reader: &mut R, buf: &mut [u8]) -> Result<usize, Broken>
    ensures prefix_len { IsPrefixLen (count_of result) buf.new }
    ensures bytes { Consumes (R.remaining reader.old) (R.remaining reader.new) (take (count_of result) buf.new) }
    ensures end { IfOk result (λ n. n < length buf.new → IsAtEnd (R.remaining reader.new)) }
{
    let mut have = 0;
    while have < buf.len() {
        match read_once(reader, &mut buf[have..]) {
            Ok(0) => return Ok(have),
            Ok(n) => have += n,
            Err(e) => return Err(Broken {
                count: have + e.count,
                ..e
            }),
        }
    }
    Ok(have)
}

// A failure as it is told: what failed, as the caller names it, and why.
#[derive(Clone, Copy)]
pub struct Failure<'a> {
    pub what: &'a [u8],
    pub why: io::Error,
}

// Writes why something failed into `text`, without the system's number that std puts behind it, as in
// `Is a directory (os error 21)`.
fn reason_of(why: io::Error, text: &mut [u8; 128]) -> &[u8] {
    let mut rest: &mut [u8] = text;
    let _ = write!(rest, "{why}");
    let left = rest.len();
    let all = &text[..text.len().saturating_sub(left)];
    let number = all.windows(11).position(|w| w.starts_with(b" (os error "));
    &all[..number.unwrap_or(all.len())]
}

fn write_failure(to: Stderr, what: &[u8], reason: &[u8]) -> io::Result<()> {
    to.write_all(what)?;
    to.write_all(b": ")?;
    to.write_all(reason)?;
    to.write_all(b"\n")
}

// Tells on standard error what failed, and why. There is no place to tell that this fails.
pub fn fail(to: Stderr, what: &[u8], why: io::Error) {
    let mut text = [0u8; 128];
    let reason = reason_of(why, &mut text);
    let _ = write_failure(to, what, reason);
}

// How many arguments there are, the program's name among them.
pub fn argument_count<R: Env>(rt: &R) -> usize {
    for i in 0..usize::MAX {
        if let Err(FillError::NotPresent) = rt.arg(i, &mut []) {
            return i;
        }
    }
    usize::MAX
}

// Why an argument did not come.
fn not_taken(e: FillError) -> io::Error {
    match e {
        FillError::NotPresent => io::Error::new(ErrorKind::InvalidInput, "Invalid argument"),
        FillError::TooLong => io::Error::new(ErrorKind::InvalidFilename, "File name too long"),
    }
}

// A file open for reading, and its name.
#[derive(Drop)]
pub struct Opened<'a, F> {
    pub file: F,
    pub name: &'a str,
}

fn open<'a, R: Files>(rt: &R, path: &'a [u8]) -> io::Result<Opened<'a, R::File>>
    ensures { IfOk result (λ o. o.name.now ≡ path.now) }
{
    let name = str::from_utf8(path).map_err(|_| io::Error::new(
        ErrorKind::InvalidFilename,
        "the name is not UTF-8",
    ))?;
    let file = fs::open(rt, name)?;
    Ok(Opened { file, name })
}

// Opens the file that argument `i` names. Its name stands in `path`. Of a failure the clause bounds what is told, a name or the
// word `argument` where none came, and does not tell which.
pub fn open_argument<'a, R: Env + Files>(
    rt: &R,
    i: usize,
    path: &'a mut [u8],
) -> Result<Opened<'a, R::File>, Failure<'a>>
    ensures name { IfOk result (λ o. length o.name.now ≤ length path.old) }
    ensures what { IfErr result (λ f. IsTold (length path.old) f.what.now) }
{
    let n = rt.arg(i, path).map_err(|e| Failure {
        what: b"argument",
        why: not_taken(e),
    })?;
    let what = &path[..n];
    open(rt, what).map_err(|why| Failure { what, why })
}
