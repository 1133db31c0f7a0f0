// The engine: what an accepted request does, and `serve`, which asks for the refusals first.
// `serve` asks nothing: bad input gets a refusal. What the functions below it ask, `serve` shows.
#![tactic(auto)]

ghost use Rattle.std.specs.Int.{w64};
ghost use Rattle.std.proofs.Common.{of_z};
ghost use Rattle.engine.specs.Calls.{RunsWhole, accepted_over, AcceptedIs, ServedIs};

use refusal::Refusal;

// A table's bytes and its place count stay two parameters, as in `table`.

// An option stays a number, as `settle::run_batch` takes it.

// The sizes that a caller keeps to; the table's are those of `table::Layout`.
pub const ROOM_LEAST: usize = refusals::ROOM_LEAST;

pub const STRIP_SIZE: usize = refusals::STRIP_SIZE;

pub const REQUEST_MOST: usize = refusals::REQUEST_MOST;

const FRAME_SIZE: usize = 88;

// An accepted request: the clock that counts is stored and what is due by it is done, then the
// items are carried out and answered, and the front is written. Answers the length of the response.
// `serve` shows what it asks, with n the number of places that the table's lead says.
fn answer_all(
    items: &[u8],
    table: &mut [u8],
    n: usize,
    fresh: &[u8],
    option: u32,
    clock: u64,
    out: &mut [u8],
    undo: &mut [u8],
) -> usize
    requires { RunsWhole n items.now table.old fresh.now out.old undo.old }
    ensures { AcceptedIs (accepted_over n items.now fresh.now option clock table.old out.old undo.old) result table.new out.new undo.new }
{
    let counted = dates::begin(table, n, clock);
    let done = settle::run_batch(items, table, n, fresh, option, &mut out[FRAME_SIZE..], undo);
    let used = done.used;
    front_write::write_front(out, counted, done.count, used);
    FRAME_SIZE + used
}

// One request in, a response out, the table changed: answers the length of the response. Or the
// request is turned away, and nothing is touched. The second buffer is for Undo: it has the table's
// size.
pub fn serve(
    request: &[u8],
    table: &mut [u8],
    fresh: &[u8],
    clock: i64,
    out: &mut [u8],
    undo: &mut [u8],
) -> Result<usize, Refusal>
    ensures { ServedIs request.now table.old fresh.now (of_z w64 clock) out.old undo.old result table.new out.new undo.new }
{
    refusals::early_refusal(request, table, fresh, out.len())?;
    let batch = frame::read_frame(request)?;
    let bits = clock::bits_of(clock);
    refusals::late_refusal(bits, table.len(), undo.len())?;
    let n = table::places_said(table) as usize;
    let items = &request[batch.items..];
    let length = answer_all(items, table, n, fresh, batch.option, bits, out, undo);
    Ok(length)
}
