// Answers the request on standard input, on a blank table with clock 1.
#![tactic(auto)]

use std::io;

fn main(rt: HostRuntime) -> io::Result<()> {
    benchlib::run(&rt, &mut rt.stdin())
}
