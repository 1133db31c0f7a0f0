// The C boundary: one call of the engine over lent buffers, which junctionmoth_c exports to C.
// Asks nothing: its contract is the engine's, with the length through a reference.
#![tactic(auto)]

ghost use Rattle.std.specs.Int.{w64};
ghost use Rattle.std.proofs.Common.{of_z};
ghost use Rattle.junctionmoth.specs.Boundary.{CallIs};

// The number of the refusal, or 0; *len is the length of the response, 0 on refusal.
pub fn junctionmoth_serve(
    request: &[u8],
    table: &mut [u8],
    fresh: &[u8],
    clock: i64,
    out: &mut [u8],
    len: &mut u64,
    undo: &mut [u8],
) -> u32
    ensures { CallIs request.now table.old fresh.now (of_z w64 clock) out.old undo.old result len.new table.new out.new undo.new }
{
    let served = engine::serve(request, table, fresh, clock, out, undo);
    let (number, length) = refusal::told(served);
    *len = length as u64;
    number
}
