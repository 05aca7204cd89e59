// Replays lists of programs of a few words, as the manual's machine runs them. The arguments name the
// files. Their lines have a letter and numbers (crate `calls`):
//
//     a P N    a case on which recorder and manual agree: a program of P words, run for N cycles
//     d P N    one on which they differ
//     u P N    one of an encoding that the manual's RV64I does not define
//     w W      a word of the program
//     x I V    register I before the run, V not 0
//     m I V    RAM word I before the run
//
// and then, of a case `a`, what the manual's machine has after the run where it is not as before:
//
//     g I V    register I
//     r I V    RAM word I
//     t B      whether the branch is taken, where the last word is one
//
// of a case `d` one of these, V by the reference, M by the manual, and of a case `u` the same without M:
//
//     g I V M  register cell I
//     r I V M  RAM word I
//     p V M    the next row; M is 2^64 - 1 where the manual goes to no row of the program
//     h V M    whether the machine has halted
//
// Registers and RAM words are in ascending order. It prints a line for each case `d` and `u`, says
// what is wrong in which line (lines count from 1), and ends each file with a line of totals. What a
// case `a` leaves is compared at its last line. A case of which a line has another form is given up:
// its other lines are passed over.
#![tactic(auto)]

mod case;
mod machine;

use calls::Line;
use case::{Case, Kind, ODD};
use report::{Console, Report, one_more};
use std::fs::File;
use std::{io, mem};
use text_lines::Replay;

// What stands before a line.
#[derive(Drop)]
enum State {
    // No case that another line belongs to.
    Between,
    // A case that is given up: its lines are passed over.
    GivenUp,
    Open(Case),
}

// The replay of a file, and how many cases of each kind it has.
#[derive(Drop)]
struct Run {
    state: State,
    agreeing: u64,
    differing: u64,
    undefined: u64,
}

impl State {
    // A case ends where the next one begins or the file ends.
    fn end(self, list: &mut Report<'_>) {
        if let State::Open(case) = self
            && let Err(what) = case.end(list)
        {
            list.wrong(what);
        }
    }

    // Takes a line that begins no case.
    fn take(self, line: &Line, list: &mut Report<'_>) -> Result<State, &'static str> {
        match self {
            State::Between => Err(ODD),
            State::GivenUp => {
                list.counts.add_passed();
                Ok(State::GivenUp)
            }
            State::Open(case) => {
                let after = case.take(line, list)?;
                Ok(after.map_or(State::Between, State::Open))
            }
        }
    }
}

impl Run {
    fn new() -> Run {
        Run {
            state: State::Between,
            agreeing: 0,
            differing: 0,
            undefined: 0,
        }
    }

    // Takes the line that begins a case.
    fn begin(&mut self, kind: Kind, line: &Line) -> Result<State, &'static str> {
        let case = Case::begin(kind, line)?;
        let count = match kind {
            Kind::Agreeing => &mut self.agreeing,
            Kind::Differing => &mut self.differing,
            Kind::Undefined => &mut self.undefined,
        };
        *count = one_more(*count);
        Ok(State::Open(case))
    }
}

impl Replay for Run {
    fn take(&mut self, bytes: &[u8], list: &mut Report<'_>) {
        let line = calls::line_of(bytes);
        let before = mem::replace(&mut self.state, State::GivenUp);
        let after = match Kind::of(line.letter) {
            Some(kind) => {
                before.end(list);
                list.line();
                self.begin(kind, &line)
            }
            None => {
                list.line();
                before.take(&line, list)
            }
        };
        match after {
            Ok(state) => self.state = state,
            Err(what) => list.wrong(what),
        }
    }

    fn end(&mut self, list: &mut Report<'_>) {
        mem::replace(&mut self.state, State::Between).end(list);
    }
}

fn check_list(list: &mut Report<'_>, file: File) -> io::Result<()> {
    let mut run = Run::new();
    text_lines::each_line(file, list, &mut run)?;
    let Run {
        agreeing,
        differing,
        undefined,
        ..
    } = run;
    list.say_replayed(format_args!(
        "{agreeing} agreeing, {differing} differing, {undefined} undefined, "
    ));
    Ok(())
}

fn main(rt: HostRuntime) {
    report::each_list(&rt, Console::of(&rt), "manual_vectors", check_list);
}
