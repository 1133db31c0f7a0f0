// Runs the bench cards of the script on standard input, and prints a line for each. Assumes
// nothing. make_cards.py writes the script and, from the papers alone, what is expected of it.
#![tactic(auto)]

use std::io;

fn main(rt: HostRuntime) -> io::Result<()> {
    cardslib::run(&rt, &mut rt.stdin())
}
