// What is done to the record at a place: Re-key, Get Usage Allocation, the moves of its state, Get
// Attributes and Get. It touches no output. Each function asks for a place of the table; `act`, which
// has found the record there, shows it.
#![tactic(auto)]

ghost use Rattle.std.specs.Prelude.{◌≡◌, []};
ghost use Rattle.table.specs.Layout.{Place};
ghost use Rattle.table.specs.Records.{place_at};
ghost use Rattle.plans.specs.Plans.{allocation_plan, carried_out, in_places, leaves};
ghost use Rattle.deeds.specs.Deeds.{showing, giving, storing, move_plan, deed_plan};

use plans::{Key, Outcome, Performed, Shown};
use rules::Reason;
use table::Record;

// A table's bytes and its place count stay two parameters, as in `table`.

// Operation and code stay numbers in a `Deed`: `act_at` answers for any.

// What is done to a record that stands. A `Command` reads as a line of 01, a `Deed` as what the
// record meets, so that a command is taken apart twice: which record it is about is seen to once,
// between the two.
#[derive(Clone, Copy)]
pub enum Deed {
    // with the Offset that is asked for
    Replace(Option<u32>),
    // so many units
    Allocate(u64),
    // an operation that moves the state, with its revocation code
    Move(u32, u32),
    Show,
    Give,
}

// Stores the record at place i anew, and answers its serial; the placeholder stays.
fn store_at(t: &mut [u8], n: usize, i: usize, holder: u32, changed: Record) -> Performed
    requires { Place n t.old i }
    ensures { leaves result t.new ≡ storing n holder t.old i changed }
{
    let serial = changed.serial;
    records_write::store(t, n, i, changed);
    Performed {
        outcome: Outcome::Done { serial },
        holder,
    }
}

// Get Usage Allocation of the record at place i.
fn allocate_at(t: &mut [u8], n: usize, i: usize, holder: u32, amount: u64) -> Performed
    requires { Place n t.old i }
    ensures { leaves result t.new ≡ carried_out t.old (allocation_plan (in_places n []) holder t.old amount i (place_at n t.old i)) }
{
    let old = records::load(t, n, i);
    match rules::grant(old.state, old.unit, old.count, amount) {
        Ok(count) => {
            let granted = changes::with_count(count, old);
            store_at(t, n, i, holder, granted)
        }
        Err(reason) => plans::fail(reason),
    }
}

// Activate, Revoke or Destroy of the record at place i, at the clock that the table keeps.
fn move_at(t: &mut [u8], n: usize, i: usize, holder: u32, operation: u32, code: u32) -> Performed
    requires { Place n t.old i }
    ensures { leaves result t.new ≡ carried_out t.old (move_plan n holder t.old operation code i (place_at n t.old i)) }
{
    let old = records::load(t, n, i);
    let clock = table::latest_clock(t);
    if date_rules::is_late(operation, clock, old.deactivation) {
        return plans::fail(Reason::WrongKeyLifecycleState);
    }
    match rules::next_state(operation, code, old.state) {
        Ok(state) => {
            let moved = changes::moved_to(operation, code, clock, state, old);
            store_at(t, n, i, holder, moved)
        }
        Err(reason) => plans::fail(reason),
    }
}

// Get Attributes of the record at place i.
fn show_at(t: &[u8], n: usize, i: usize, holder: u32) -> Performed
    requires { Place n t.now i }
    ensures { result ≡ showing holder (place_at n t.now i) }
{
    let shown = records::load(t, n, i);
    let name = shown.name;
    Performed {
        outcome: Outcome::Showed {
            shown: Shown {
                serial: shown.serial,
                bits: shown.bits,
                mask: shown.mask,
                state: shown.state,
                activation: shown.activation,
                deactivation: shown.deactivation,
                unit: shown.unit,
                total: shown.total,
                count: shown.count,
                replaced: shown.replaced,
                replacement: shown.replacement,
                name,
            },
        },
        holder,
    }
}

// Get of the record at place i: its key, unless it is destroyed.
fn give_at(t: &[u8], n: usize, i: usize, holder: u32) -> Performed
    requires { Place n t.now i }
    ensures { result ≡ giving holder (place_at n t.now i) }
{
    let given = records::load(t, n, i);
    if search::is_destroyed(given.state) {
        return plans::fail(Reason::ObjectDestroyed);
    }
    let material = given.material;
    Performed {
        outcome: Outcome::Got {
            key: Key {
                serial: given.serial,
                bits: given.bits,
                material: words::words_of(material),
            },
        },
        holder,
    }
}

// What is asked of the record at place i.
pub fn act_at(t: &mut [u8], n: usize, i: usize, holder: u32, deed: Deed, fresh: &[u8]) -> Performed
    requires { Place n t.old i }
    ensures { leaves result t.new ≡ carried_out t.old (deed_plan (in_places n fresh.now) holder t.old deed i (place_at n t.old i)) }
{
    match deed {
        Deed::Replace(offset) => births::rekey_at(t, n, i, offset, fresh),
        Deed::Allocate(amount) => allocate_at(t, n, i, holder, amount),
        Deed::Move(operation, code) => move_at(t, n, i, holder, operation, code),
        Deed::Show => show_at(t, n, i, holder),
        Deed::Give => give_at(t, n, i, holder),
    }
}
