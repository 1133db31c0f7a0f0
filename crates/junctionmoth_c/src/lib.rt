// The archive for C, libjunctionmoth.a: the call of the crate junctionmoth under its C name. include/junctionmoth.h
// says what a host must know. Asks nothing: its contract is that call's.
#![tactic(auto)]

ghost use Rattle.std.specs.Int.{w64};
ghost use Rattle.std.proofs.Common.{of_z};
ghost use Rattle.junctionmoth.specs.Boundary.{CallIs};

// The number of the refusal, or 0; *len is the length of the response, 0 on refusal.
#[unsafe(no_mangle)]
pub extern "C" fn junctionmoth_serve(
    request: &[u8],
    table: &mut [u8],
    fresh: &[u8],
    clock: i64,
    out: &mut [u8],
    len: &mut u64,
    undo: &mut [u8],
) -> u32
    ensures { CallIs request.now table.old fresh.now (of_z w64 clock) out.old undo.old result len.new table.new out.new undo.new }
{
    junctionmoth::junctionmoth_serve(request, table, fresh, clock, out, len, undo)
}
