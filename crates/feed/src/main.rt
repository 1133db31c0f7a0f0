// Carries out the calls on standard input and writes what each of them left to standard output.
// Assumes nothing.
#![tactic(auto)]

use std::io;

fn main(rt: HostRuntime) -> io::Result<()> {
    feedlib::run(&rt, &mut rt.stdin(), &mut rt.stdout())
}
