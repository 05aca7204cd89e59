// Replays lists of calls of the interpreter. The arguments name the files. Their lines have a letter
// and numbers (crate `calls`):
//
//     l P I          a list: a program of P words, an input of I words
//     w W            a word of the program
//     i X            a word of the input
//     s N ROOM CODE  a segment call of N cycles, lent ROOM words, that returns CODE
//     p N ROOM CODE  a padding call
//     r W0 .. W16    a record; N of them after an accepted call
//     c MICRO_PC CYCLES HALTED OUTPUT NEXT_FETCH  the cursor after a call
//     g I V          a register that the call changed, and its value; in ascending order
//     m I V          a word of RAM, likewise
//
// It says what is wrong in which line (lines count from 1), and ends each file with a line of totals.
// A list of which a line has another form, or a call another code, is given up: its other lines are
// passed over.
#![tactic(auto)]

mod cells;
mod run;

use report::{Console, Report};
use run::Run;
use std::fs::File;
use std::io;

fn check_list(list: &mut Report<'_>, file: File) -> io::Result<()> {
    let mut run = Run::new();
    text_lines::each_line(file, list, &mut run)?;
    run.say_total(list);
    Ok(())
}

fn main(rt: HostRuntime) {
    report::each_list(&rt, Console::of(&rt), "interp_vectors", check_list);
}
