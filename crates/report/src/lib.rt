// Messages on standard output, and about the lines of a list. Each piece of a message is a write of its
// own: a text between two values, and a value. One that fails is told on standard error.
#![tactic(auto)]

ghost use Rattle.std.specs.Prelude.{◌≡◌, []};
ghost use Rattle.std.specs.Str.{IsUtf8};
ghost use Rattle.report.specs.Counting.{one_more, no_counts, with_lines, with_same, with_passed, with_wrong, IsAfterLine};
ghost use Rattle.report.specs.Reading.{ReadsLine};

use std::env::Env;
use std::fmt::{Display, Write};
use std::io::{Print, Read, Stderr, Stdout};
use std::rt::Files;
use std::{fmt, io};

// What is said of a list that ends inside a line.
pub const CUT: &str = "cut short";

// Where messages go, and what fails there is told.
#[derive(Clone, Copy)]
pub struct Console {
    pub out: Stdout,
    pub err: Stderr,
}

impl Console {
    pub fn of(rt: &HostRuntime) -> Console {
        Console {
            out: rt.stdout(),
            err: rt.stderr(),
        }
    }

    // What a write to standard output came to.
    fn tell(self, written: io::Result<()>) {
        if let Err(why) = written {
            input::fail(self.err, b"standard output", why);
        }
    }

    // Says a text, as the macro `format_args!` makes it, piece by piece. What fails is told where it fails.
    pub fn say<D: Display + Drop>(self, text: D) {
        let _ = write!(Pieces { to: self }, "{text}");
    }

    // Says a text in one write: zeros in front of a number would be a piece of their own.
    pub fn say_whole<D: Display + Drop>(self, text: D) {
        self.tell(self.out.print(text));
    }

    // Says bytes that need not be text.
    pub fn say_bytes(self, bytes: &[u8]) {
        self.tell(self.out.write_all(bytes));
    }
}

// Takes the pieces of a text. One that cannot be written is told, and the others are tried all the same.
#[derive(Drop)]
struct Pieces {
    to: Console,
}

impl fmt::Write for Pieces {
    fn write_str(&mut self, piece: &str) -> fmt::Result {
        self.to.say_bytes(piece.as_bytes());
        Ok(())
    }
}

// The lines of a list that were taken, the characters compared in those that are the same, and how
// many lines were passed over and are wrong.
#[derive(Clone, Copy)]
pub struct Counts {
    pub lines: u64,
    pub characters: u64,
    pub passed: u64,
    pub wrong: u64,
}

// The counts wrap, at a size that no file has.
pub fn one_more(n: u64) -> u64
    ensures { result ≡ one_more n }
{
    n.wrapping_add(1)
}

impl Counts {
    pub fn none() -> Counts
        ensures { result ≡ no_counts }
    {
        Counts {
            lines: 0,
            characters: 0,
            passed: 0,
            wrong: 0,
        }
    }

    // So many lines more.
    pub fn add_lines(&mut self, n: u64)
        ensures { self.new ≡ with_lines n self.old }
    {
        self.lines = self.lines.wrapping_add(n);
    }

    // A line is the same in `n` characters.
    pub fn add_same(&mut self, n: u64)
        ensures { self.new ≡ with_same n self.old }
    {
        self.characters = self.characters.wrapping_add(n);
    }

    pub fn add_passed(&mut self)
        ensures { self.new ≡ with_passed self.old }
    {
        self.passed = one_more(self.passed);
    }

    pub fn add_wrong(&mut self)
        ensures { self.new ≡ with_wrong self.old }
    {
        self.wrong = one_more(self.wrong);
    }
}

// What is said of a list: where, under which name, and the counts of its lines so far.
#[derive(Clone, Copy)]
pub struct Report<'a> {
    pub to: Console,
    pub name: &'a [u8],
    pub counts: Counts,
}

impl<'a> Report<'a> {
    // Before the first line.
    pub fn new(to: Console, name: &'a [u8]) -> Report<'a>
        ensures { result ≡ record { to = to; name = name.entry; counts = no_counts } }
    {
        Report {
            to,
            name,
            counts: Counts::none(),
        }
    }

    // The name as text; an empty text, where it is not UTF-8.
    pub fn name_as_str(&self) -> &'a str
        ensures text { IsUtf8 self.now.name.now → result.now ≡ self.now.name.now }
        ensures bytes { ¬ (IsUtf8 self.now.name.now) → result.now ≡ [] }
    {
        str::from_utf8(self.name).unwrap_or("")
    }

    // One line more is taken.
    pub fn line(&mut self)
        ensures { self.new ≡ record self.old { counts = with_lines 1 self.old.counts } }
    {
        self.counts.add_lines(1);
    }

    // Begins a message about line `n`.
    pub fn say_place(&self, n: u64) {
        self.to.say_bytes(self.name);
        self.to.say(format_args!(" line {n}: "));
    }

    // Says something about line `n`.
    pub fn say_line<D: Display + Drop>(&self, n: u64, what: D) {
        self.say_place(n);
        self.to.say(format_args!("{what}\n"));
    }

    // Says what is wrong with the last line that was taken.
    pub fn wrong<D: Display + Drop>(&mut self, what: D)
        ensures { self.new ≡ record self.old { counts = with_wrong self.old.counts } }
    {
        self.wrong_fed(format_args!("{what}\n"));
    }

    // The same of a text with its line feed, for one that ends in a piece with it.
    pub fn wrong_fed<D: Display + Drop>(&mut self, what: D)
        ensures { self.new ≡ record self.old { counts = with_wrong self.old.counts } }
    {
        self.say_place(self.counts.lines);
        self.to.say(what);
        self.counts.add_wrong();
    }

    // The same in bytes, which need not be text.
    pub fn wrong_bytes(&mut self, what: &[u8])
        ensures { self.new ≡ record self.old { counts = with_wrong self.old.counts } }
    {
        self.say_place(self.counts.lines);
        self.to.say_bytes(what);
        self.to.say("\n");
        self.counts.wrong = one_more(self.counts.wrong);
    }

    // Says where the last line that was taken differs.
    pub fn differs(&mut self, at: usize)
        ensures { self.new ≡ record self.old { counts = with_wrong self.old.counts } }
    {
        self.wrong(format_args!("differs at column {at}"));
    }

    // Takes the next line of a list whose lines have `N` bytes; none, where the list ends. One that ends
    // inside a line has one wrong line more.
    pub fn read_line<R: Read, const N: usize>(
        &mut self,
        file: &mut R,
    ) -> io::Result<Option<[u8; N]>>
        ensures report { IsAfterLine result self.old self.new }
        ensures bytes { ReadsLine result (R.remaining file.old) (R.remaining file.new) }
    {
        let mut line = [0; N];
        let n = input::fill(file, &mut line)?;
        if n == N {
            self.line();
            return Ok(Some(line));
        }
        if n > 0 {
            self.line();
            self.wrong(CUT);
        }
        Ok(None)
    }

    // Ends a list whose lines are compared. What was counted besides stands in front.
    pub fn say_compared<D: Display + Drop>(&self, besides: D) {
        let Counts {
            lines,
            characters,
            wrong,
            ..
        } = self.counts;
        self.to.say_bytes(self.name);
        self.to.say(format_args!(
            ": {besides}{lines} lines, {characters} characters compared, {wrong} wrong\n"
        ));
    }

    // Ends a list that is replayed, likewise.
    pub fn say_replayed<D: Display + Drop>(&self, besides: D) {
        let Counts {
            lines,
            passed,
            wrong,
            ..
        } = self.counts;
        self.to.say_bytes(self.name);
        self.to.say(format_args!(
            ": {besides}{lines} lines, {passed} passed over, {wrong} wrong\n"
        ));
    }
}

// Runs `check` on the file that argument `i` names. What fails is told on standard error.
fn check_argument<R: Env + Files, F: Fn(&mut Report<'_>, R::File) -> io::Result<()>>(
    rt: &R,
    to: Console,
    i: usize,
    check: &F,
)
    requires { F.IsAlwaysCallable check.now }
{
    let mut path = [0u8; 4096];
    match input::open_argument(rt, i, &mut path) {
        Ok(list) => {
            let name = list.name.as_bytes();
            let mut report = Report::new(to, name);
            if let Err(why) = check(&mut report, list.file) {
                input::fail(to.err, name, why);
            }
        }
        Err(failure) => input::fail(to.err, failure.what, failure.why),
    }
}

// Runs `check` on each file that an argument names; says how to call the program where there is none.
pub fn each_list<R: Env + Files, F: Fn(&mut Report<'_>, R::File) -> io::Result<()>>(
    rt: &R,
    to: Console,
    program: &str,
    check: F,
)
    requires { F.IsAlwaysCallable check }
{
    let count = input::argument_count(rt);
    if count < 2 {
        // There is no place to tell that this fails.
        let _ = println!(to.err; "usage: {program} LIST..");
        return;
    }
    for i in 1..count {
        check_argument(rt, to, i, &check);
    }
}
