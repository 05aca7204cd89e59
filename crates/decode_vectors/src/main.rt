// Compares lists of listing lines with the lines that the decoder gives for their words. The
// arguments name the lists. It says which lines are wrong (lines count from 1, columns from 0), and
// ends each list with a line of totals.
#![tactic(auto)]

use listing::Wrong;
use report::{Console, Report};
use std::fs::File;
use std::io;

// Compares the last line that was taken, and says what is wrong with it.
fn check_line(list: &mut Report<'_>, line: &[u8; 48]) {
    match listing::judge(line) {
        Ok(n) => list.counts.add_same(n as u64),
        Err(Wrong::NoLine) => list.wrong("not a listing line"),
        Err(Wrong::Differs { at, raw }) => {
            list.differs(at);
            list.to.say("  stored  ");
            list.to.say_bytes(line);
            list.to.say("  decoded ");
            list.to.say_bytes(&listing::word_line_of(raw));
        }
    }
}

// Checks the lines of a list. A terminal can go on after a line that is cut short. The turns are more
// than any run uses up.
fn check_list(list: &mut Report<'_>, mut file: File) -> io::Result<()> {
    for _ in 0..u64::MAX {
        let before = list.counts.lines;
        match list.read_line(&mut file)? {
            Some(line) => check_line(list, &line),
            None if list.counts.lines == before => break,
            None => {}
        }
    }
    list.say_compared("");
    Ok(())
}

fn main(rt: HostRuntime) {
    report::each_list(&rt, Console::of(&rt), "decode_vectors", check_list);
}
