// What happens before the first item of an accepted request: the clock that counts is stored, and
// what the keys' dates make due by it is done. It touches no output. `begin` asks for a table of so
// many places; the check of the table, which the engine makes first, shows it.
#![tactic(auto)]

ghost use Rattle.std.specs.Prelude.{◌≡◌};
ghost use Rattle.table.specs.Layout.{Table, Place};
ghost use Rattle.changes.specs.Dates.{is_ripe, ripe_at, ripe_from, counted_clock, began};

use table::Layout;

// A table's bytes and its place count stay two parameters, as in `table`.

// Whether a key stands at place i and its dates move it. Its state and its dates are read by
// themselves: nothing is due at most places, and a whole record takes longer.
fn is_ripe(t: &[u8], n: usize, i: usize, clock: u64) -> bool
    requires { Place n t.now i }
    ensures { result ≡ is_ripe n clock t.now i }
{
    if table::serial_at(t, i) == 0 {
        return false;
    }
    let line = Layout::line(i);
    let layout = Layout { places: n };
    let body = layout.body(i);
    let state = octets::number_at(t, line + Layout::STATE_IN, 1) as u8;
    let activation = octets::number_at(t, body + Layout::ACTIVATION_IN, 8);
    let deactivation = octets::number_at(t, body + Layout::DEACTIVATION_IN, 8);
    date_rules::dated_state(clock, activation, deactivation, state) != state
}

// What is due at place i: nothing is written where nothing is.
fn ripen_at(t: &mut [u8], n: usize, i: usize, clock: u64)
    requires { Place n t.old i }
    ensures { t.new ≡ ripe_at n clock t.old i }
{
    if !is_ripe(t, n, i, clock) {
        return;
    }
    let old = records::load(t, n, i);
    let state = date_rules::dated_state(clock, old.activation, old.deactivation, old.state);
    let mut ripe = old;
    ripe.state = state;
    records_write::store(t, n, i, ripe);
}

// What is due at every place.
fn ripen(t: &mut [u8], n: usize, clock: u64)
    requires { Table n t.old }
    ensures { t.new ≡ ripe_from n clock 0 n t.old }
{
    for i in 0..n {
        ripen_at(t, n, i, clock);
    }
}

// The clock that counts, which is answered, is stored, and what is due by it is done.
pub fn begin(t: &mut [u8], n: usize, given: u64) -> u64
    requires { Table n t.old }
    ensures { (result ≡ counted_clock given t.old) × (t.new ≡ began n (counted_clock given t.old) t.old) }
{
    let latest = table::latest_clock(t);
    let clock = given.max(latest);
    table::set_latest_clock(t, clock);
    ripen(t, n, clock);
    clock
}
