// The bench program's work: a request from a stream on a blank table of 64 places, its response in
// hex on a line, or the refusal's number. What is lent to the call is proved, and the call is the
// engine's; what is printed is tested and not proved. A failed read or write ends it with the error.
#![tactic(auto)]

use std::io;
use std::io::Read;
use table::Layout;

// One byte above the longest request, so that a longer one is seen.
const REQUEST_ROOM: usize = engine::REQUEST_MOST + 1;

// "Document 01's card and bench program move to clock 1".
const CLOCK: i64 = 1;

pub fn run<R: Read>(rt: &impl Print, from: &mut R) -> io::Result<()> {
    let mut request = [0u8; REQUEST_ROOM];
    let n = readlib::read_full(from, &mut request)?;
    let mut table = [0u8; Layout::SMALL_SIZE];
    lent::blank_over(&mut table, Layout::SMALL_COUNT);
    let mut strip = [0u8; engine::STRIP_SIZE];
    lent::fill_strip(&mut strip);
    let mut out = [0u8; engine::ROOM_LEAST];
    let mut undo = [0u8; Layout::SMALL_SIZE];
    let served = engine::serve(
        &request[..n],
        &mut table,
        &strip,
        CLOCK,
        &mut out,
        &mut undo,
    );
    let (number, length) = refusal::told(served);
    printlib::answer(rt, &out, number, length)
}
