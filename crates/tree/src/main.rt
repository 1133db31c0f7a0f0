// Shows a TTLV message from standard input, at most 65,536 bytes of it, as an indented tree of
// items. Assumes nothing. A failed read or write ends it with the error.
#![tactic(auto)]

use std::io;

fn main(rt: HostRuntime) -> io::Result<()> {
    let mut s = [0u8; readlib::LARGE];
    let n = readlib::read_full(&mut rt.stdin(), &mut s)?;
    treelib::show(&rt, &s[..n])
}
