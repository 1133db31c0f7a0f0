// New objects in the table: Create, and Re-key of the record at a place. It touches no output.
// Each function asks for a table of so many places, or for a place in it; `act` and `deeds` show it.
#![tactic(auto)]

ghost use Rattle.std.specs.Prelude.{◌≡◌, Some};
ghost use Rattle.table.specs.Layout.{Table, Place};
ghost use Rattle.table.specs.Records.{place_at};
ghost use Rattle.changes.specs.Changes.{born_at};
ghost use Rattle.plans.specs.Plans.{empty_holder, create_plan, rekey_plan, carried_out, in_places, leaves};
ghost use Rattle.births.specs.Births.{TwoPlaces, place_for_new, linked_at, creating, replacing};

use heirs::Dates;
use plans::{Outcome, Performed};
use rules::{Attributes, Reason};
use table::Record;

// A table's bytes and its place count stay two parameters, as in `table`.

const SERIAL_MOST: u32 = 4294967295;

// Where a new object goes: nowhere if every serial is issued, else the table's place for a new key.
fn place_for_new(t: &[u8], n: usize) -> Option<usize>
    requires { Table n t.now }
    ensures { result ≡ place_for_new n t.now }
{
    if table::last_serial(t) == SERIAL_MOST {
        return None;
    }
    search::new_place(t, n)
}

// Stores a new record at place i; its serial is the last issued from then on.
fn put_born(t: &mut [u8], n: usize, i: usize, born: Record)
    requires { Place n t.old i }
    ensures { t.new ≡ born_at n t.old born (Some i) }
{
    let serial = born.serial;
    records_write::store(t, n, i, born);
    table::set_last_serial(t, serial);
}

// Lets the record at place i name its replacement, and stores that at a place of its own.
fn put_heir(t: &mut [u8], n: usize, i: usize, place: usize, heir: Record)
    requires { TwoPlaces n t.old i place }
    ensures { t.new ≡ born_at n (linked_at n t.old i heir) heir (Some place) }
{
    let old = records::load(t, n, i);
    let linked = heirs::linked_to(heir.serial, old);
    records_write::store(t, n, i, linked);
    put_born(t, n, place, heir);
}

// Create, where no record has the name: whether there is a place for the new object is left to see.
fn create_new(t: &mut [u8], n: usize, wanted: Attributes, fresh: &[u8]) -> Performed
    requires { Table n t.old }
    ensures { leaves result t.new ≡ creating n fresh.now t.old wanted (place_for_new n t.old) }
{
    match place_for_new(t, n) {
        Some(i) => {
            let serial = table::last_serial(t) + 1;
            let born = new_records::new_record(serial, wanted, fresh);
            put_born(t, n, i, born);
            Performed {
                outcome: Outcome::Created { serial },
                holder: serial,
            }
        }
        None => plans::fail(Reason::ServerLimitExceeded),
    }
}

// Create.
pub fn create(t: &mut [u8], n: usize, wanted: Attributes, fresh: &[u8]) -> Performed
    requires { Table n t.old }
    ensures { leaves result t.new ≡ carried_out t.old (create_plan (in_places n fresh.now) empty_holder t.old wanted) }
{
    let name = wanted.name;
    if name_search::is_taken(t, n, name) {
        return plans::fail(Reason::NonUniqueName);
    }
    create_new(t, n, wanted, fresh)
}

// Re-key of the record at place i, which is neither destroyed nor replaced, with the new object's
// dates: whether there is a place for it is left to see.
fn replace_at(
    t: &mut [u8],
    n: usize,
    i: usize,
    old: Record,
    dates: Dates,
    fresh: &[u8],
) -> Performed
    requires { Place n t.old i }
    ensures { leaves result t.new ≡ replacing n fresh.now t.old i old dates (place_for_new n t.old) }
{
    match place_for_new(t, n) {
        Some(place) => {
            let serial = table::last_serial(t) + 1;
            let clock = table::latest_clock(t);
            let heir = heirs::heir_of(
                serial,
                clock,
                dates.activation,
                dates.deactivation,
                old,
                fresh,
            );
            put_heir(t, n, i, place, heir);
            Performed {
                outcome: Outcome::Done { serial },
                holder: serial,
            }
        }
        None => plans::fail(Reason::ServerLimitExceeded),
    }
}

// Re-key of the record at place i, at the clock that the table keeps.
pub fn rekey_at(t: &mut [u8], n: usize, i: usize, offset: Option<u32>, fresh: &[u8]) -> Performed
    requires { Place n t.old i }
    ensures { leaves result t.new ≡ carried_out t.old (rekey_plan (in_places n fresh.now) empty_holder t.old offset i (place_at n t.old i)) }
{
    let old = records::load(t, n, i);
    if search::is_destroyed(old.state) {
        return plans::fail(Reason::ObjectDestroyed);
    }
    if old.replacement != 0 {
        return plans::fail(Reason::PermissionDenied);
    }
    match heirs::heir_dates(table::latest_clock(t), offset, old) {
        Some(dates) => replace_at(t, n, i, old, dates, fresh),
        None => plans::fail(Reason::InvalidField),
    }
}
