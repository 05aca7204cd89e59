// Runs the calls of document 02's requests at their limits, a module for each request. A line has the
// number that a call returned and what was compared, with WRONG in front of what differs.
#![tactic(auto)]

mod figures;
mod index;
mod turns;

use report::Console;

fn main(rt: HostRuntime) {
    let to = Console::of(&rt);
    index::run(to);
    figures::run(to);
    turns::run(to);
}
