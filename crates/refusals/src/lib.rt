// The refusals that are not the frame's: 1 to 5, which come first, and 10 and 11, which come last.
// They ask nothing and write nothing.
#![tactic(auto)]

ghost use Rattle.std.specs.Prelude.{◌≡◌};
ghost use Rattle.refusal.specs.Numbers.{refused_with};
ghost use Rattle.refusals.specs.Refusals.{early_refusal, late_refusal};

use refusal::Refusal;

// The sizes that a caller keeps to; the table's are those of `table::Layout`.
pub const ROOM_LEAST: usize = 6360;

pub const STRIP_SIZE: usize = 512;

pub const REQUEST_MOST: usize = 4096;

// The lowest of refusals 1 to 5, if one applies: sizes, the table, and TTLV. Nothing is written.
pub fn early_refusal(request: &[u8], table: &[u8], fresh: &[u8], room: usize) -> Result<(), Refusal>
    ensures { refused_with result ≡ early_refusal request.now table.now fresh.now room }
{
    if room < ROOM_LEAST {
        return Err(Refusal::Room);
    }
    if fresh.len() != STRIP_SIZE {
        return Err(Refusal::Strip);
    }
    if !place_counts::table_right(table) {
        return Err(Refusal::Table);
    }
    if request.len() == 0 {
        return Err(Refusal::Length);
    }
    if REQUEST_MOST < request.len() {
        return Err(Refusal::Length);
    }
    if !ttlv::is_message(request) {
        return Err(Refusal::Message);
    }
    Ok(())
}

// Refusals 10 and 11, which come last: a clock below 1, a second buffer of another size than the
// table's.
pub fn late_refusal(clock: u64, size: usize, lent: usize) -> Result<(), Refusal>
    ensures { refused_with result ≡ late_refusal clock size lent }
{
    if !values::above_zero(clock) {
        return Err(Refusal::Clock);
    }
    if lent != size {
        return Err(Refusal::Buffer);
    }
    Ok(())
}
