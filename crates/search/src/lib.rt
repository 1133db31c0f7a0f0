// Searches of the stored table: a record by its serial, and where a new key goes.
// It knows nothing of TTLV and nothing of what may happen to a key.
#![tactic(auto)]

ghost use Rattle.std.specs.Prelude.{◌≡◌, ℕ, ◌<◌};
ghost use Rattle.table.specs.Layout.{HasLine, Table};
ghost use Rattle.table.specs.Records.{state_at};
ghost use Rattle.search.specs.Search.{first, IsFirst, has_serial, find, is_destroyed, free_place, destroyed_place, new_place};

use table::Layout;

// A table's bytes and its place count stay two parameters, as in `table`.

// A state stays the byte that a table stores: any may stand there.

// The state of place i, read by itself.
fn state_at(t: &[u8], i: usize) -> u8
    requires { HasLine t.now i }
    ensures { result ≡ state_at t.now i }
{
    let at = Layout::line(i);
    octets::number_at(t, at + Layout::STATE_IN, 1) as u8
}

// Whether a state is 5 or 6.
pub fn is_destroyed(state: u8) -> bool
    ensures { result ≡ is_destroyed state }
{
    (state == 5) | (state == 6)
}

// The lowest of n places that passes a test.
#[tactic(auto, unfolding(crate::specs::Search::IsFirst))]
pub fn first_place<F: Fn(usize) -> bool>(n: usize, test: F) -> Option<usize>
    requires { (i : ℕ) → i < n → F.pre test i }
    ensures { IsFirst n (F.post test) result }
{
    for place in 0..n {
        if test(place) {
            return Some(place);
        }
    }
    None
}

// The lowest place whose serial is this one; zero finds a free place.
fn place_with(t: &[u8], n: usize, serial: u32) -> Option<usize>
    requires { Table n t.now }
    ensures { result ≡ first n (has_serial t.now serial) }
{
    first_place(n, |i| table::serial_at(t, i) == serial)
}

// The place of the record with this serial; zero is no record's serial.
pub fn find(t: &[u8], n: usize, serial: u32) -> Option<usize>
    requires { Table n t.now }
    ensures { result ≡ find n t.now serial }
{
    if serial == 0 {
        return None;
    }
    place_with(t, n, serial)
}

// The lowest free place.
fn free_place(t: &[u8], n: usize) -> Option<usize>
    requires { Table n t.now }
    ensures { result ≡ free_place n t.now }
{
    place_with(t, n, 0)
}

// The lowest place in state 5 or 6.
fn destroyed_place(t: &[u8], n: usize) -> Option<usize>
    requires { Table n t.now }
    ensures { result ≡ destroyed_place n t.now }
{
    first_place(n, |i| is_destroyed(state_at(t, i)))
}

// Where a new key goes: the lowest free place, or if none is free the lowest place in state 5 or 6.
pub fn new_place(t: &[u8], n: usize) -> Option<usize>
    requires { Table n t.now }
    ensures { result ≡ new_place n t.now }
{
    free_place(t, n).or_else(|| destroyed_place(t, n))
}
