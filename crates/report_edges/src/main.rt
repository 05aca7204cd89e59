// How a comparison of lists is said, in words that are text and in bytes, which no clause says; and the name of a list as text.
#![tactic(auto)]

use edges::{say_list, say_list_bytes};
use report::{Console, Report};

const WANT: [u64; 2] = [1, 2];

// What is wanted and 0 behind it; a place that is other; one that is missing; one past the end that is not 0.
const FOUND: [&[u64]; 4] = [&[1, 2, 0], &[1, 3], &[1], &[1, 2, 0, 4]];

fn main(rt: HostRuntime) {
    let to = Console::of(&rt);
    for found in FOUND {
        to.say("text");
        say_list(to, "words", &WANT, 0, found);
        to.say("\nbytes");
        say_list_bytes(to, b"words ", &WANT, 0, found);
        to.say("\n");
    }
    let names: [&[u8]; 2] = [b"list", b"\xffist"];
    for name in names {
        let list = Report::new(to, name);
        to.say(format_args!("name '{}'\n", list.name_as_str()));
    }
}
