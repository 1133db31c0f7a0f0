// How a record is replaced, by value: the dates of a replacement, the replacement itself, and the
// record that names it. Nothing is asked. Whether a Re-key is due is decided by rules.
#![tactic(auto)]

ghost use Rattle.std.specs.Prelude.{◌≡◌};
ghost use Rattle.heirs.specs.Heirs.{heir_dated, heir_dates, linked_to};

use table::Record;

// The largest Date-Time.
const DATE_MOST: u64 = 9223372036854775807;

// The dates of a replacement.
#[derive(Clone, Copy)]
pub struct Dates {
    pub activation: u64,
    pub deactivation: u64,
}

// The dates of the record that Re-key makes of `old`: copied, or with an Offset the clock plus the
// Offset and, as far behind it as before, the deactivation date. An Offset that is wrong gives none.
pub fn heir_dates(clock: u64, offset: Option<u32>, old: Record) -> Option<Dates>
    ensures { result ≡ heir_dates clock offset old }
{
    let Some(seconds) = offset else {
        return Some(Dates {
            activation: old.activation,
            deactivation: old.deactivation,
        });
    };
    if (old.activation == 0) & (old.deactivation != 0) {
        return None;
    }
    let wait = seconds as u64;
    if DATE_MOST - wait < clock {
        return None;
    }
    let start = clock + wait;
    if old.deactivation == 0 {
        return Some(Dates {
            activation: start,
            deactivation: 0,
        });
    }
    let wide = old.deactivation.saturating_sub(old.activation);
    if DATE_MOST - start < wide {
        return None;
    }
    Some(Dates {
        activation: start,
        deactivation: start + wide,
    })
}

// The record that Re-key makes of `old`, which it names, with these dates and in the state that
// they make of a Pre-Active key.
pub fn heir_of(
    serial: u32,
    clock: u64,
    activation: u64,
    deactivation: u64,
    old: Record,
    fresh: &[u8],
) -> Record
    ensures { result ≡ heir_dated serial clock activation deactivation old fresh.now }
{
    let state = date_rules::dated_state(clock, activation, deactivation, rules::PRE_ACTIVE);
    let material = new_records::material_from(fresh, old.bits);
    let name = old.name;
    Record {
        serial,
        state,
        unit: old.unit,
        bits: old.bits,
        replaced: old.serial,
        replacement: 0,
        total: old.total,
        count: old.total,
        mask: old.mask,
        material,
        activation,
        deactivation,
        name,
    }
}

// The record that names its replacement, to which its name has gone.
pub fn linked_to(serial: u32, old: Record) -> Record
    ensures { result ≡ linked_to serial old }
{
    let nameless = names::no_name();
    let mut linked = old;
    linked.replacement = serial;
    linked.name = nameless;
    linked
}
