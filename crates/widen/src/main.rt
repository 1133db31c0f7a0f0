// Turns a stored table of 4,624 or 5,648 bytes from standard input into one of 8,208 bytes on
// standard output, with what is new not set. What is no sound table of an old size is declined on
// standard error, and nothing is written then. Assumes nothing. The conversion is proved in
// convert; what is read and written is tested. A failed read ends it with the error.
#![tactic(auto)]

use std::io;
use table::Layout;

fn main(rt: HostRuntime) -> io::Result<()> {
    // one byte above the larger old table, so that a longer input is seen
    let mut old = [0u8; convert::DATED_SIZE + 1];
    let n = readlib::read_full(&mut rt.stdin(), &mut old)?;
    let mut new = [0u8; Layout::SMALL_SIZE];
    if !convert::convert(&old[..n], &mut new) {
        return rt.eprint("widen: not a sound table of 4,624 or 5,648 bytes\n");
    }
    if rt.write_all(&new).is_err() {
        return rt.eprint("widen: the output takes no more\n");
    }
    Ok(())
}
