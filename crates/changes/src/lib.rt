// The changes of a record, by value: how it moves and is destroyed, and what a grant leaves of it.
// They ask nothing. Whether a change is due is decided by rules; records are those of the table
// crate.
#![tactic(auto)]

ghost use Rattle.std.specs.Prelude.{◌≡◌};
ghost use Rattle.changes.specs.Records.{stops, moved_to, with_count};
ghost use Rattle.octets.specs.If.{ifb};

use table::Record;

// Operation, code and state stay numbers: `moved_to` answers for any.

// Whether an operation is a Revoke that is no compromise, which sets the deactivation date.
fn stops(operation: u32, code: u32) -> bool
    ensures { result ≡ stops operation code }
{
    (operation == rules::REVOKE) & !((code == 2) | (code == 3))
}

// A date that an operation sets to the clock, or leaves.
fn date_after(sets: bool, clock: u64, date: u64) -> u64
    ensures { result ≡ ifb sets clock date }
{
    if sets {
        return clock;
    }
    date
}

// The record in its next state. Activate, and a Revoke that is no compromise, set their date to the
// clock; Destroy zeroes the material, and keeps total and count.
pub fn moved_to(operation: u32, code: u32, clock: u64, state: u8, old: Record) -> Record
    ensures { result ≡ moved_to operation code clock state old }
{
    let activation = date_after(operation == rules::ACTIVATE, clock, old.activation);
    let deactivation = date_after(stops(operation, code), clock, old.deactivation);
    let mut moved = old;
    moved.state = state;
    moved.activation = activation;
    moved.deactivation = deactivation;
    if operation == rules::DESTROY {
        moved.material = [0u8; 32];
    }
    moved
}

// The record with what a grant has left.
pub fn with_count(count: u64, old: Record) -> Record
    ensures { result ≡ with_count count old }
{
    let mut granted = old;
    granted.count = count;
    granted
}
