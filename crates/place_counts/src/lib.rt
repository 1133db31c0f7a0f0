// The check of a table by the place count that its lead says: 64 or 256.
// It writes nothing, and takes bytes of any length and content.
#![tactic(auto)]

ghost use Rattle.std.specs.Prelude.{◌≡◌};
ghost use Rattle.table.specs.Layout.{places_ok};
ghost use Rattle.place_counts.specs.Counts.{table_right};

use table::Layout;

// Whether there are tables of n places.
fn places_ok(n: usize) -> bool
    ensures { result ≡ places_ok n }
{
    (n == Layout::SMALL_COUNT) | (n == Layout::LARGE_COUNT)
}

// Whether t is a sound table of a count that there is. Any bytes get an answer.
pub fn table_right(t: &[u8]) -> bool
    ensures { result ≡ table_right t.now }
{
    if t.len() < Layout::LEAD {
        return false;
    }
    let n = table::places_said(t) as usize;
    if !places_ok(n) {
        return false;
    }
    soundness::is_sound(t, n)
}
