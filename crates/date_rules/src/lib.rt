// What a key's dates make of its state at a clock, and when it is too late to activate one. It asks
// nothing and knows nothing of TTLV. Dates and clocks are their 64 bits; a date of 0 is not set.
#![tactic(auto)]

ghost use Rattle.std.specs.Prelude.{◌≡◌};
ghost use Rattle.date_rules.specs.Dates.{has_come, moved_by, dated_state, is_late};

// Operation and state stay numbers: `dated_state` and `is_late` answer for any.

// Whether a date is set and has come.
fn has_come(clock: u64, date: u64) -> bool
    ensures { result ≡ has_come clock date }
{
    (1..=clock).contains(&date)
}

// The state that a date makes of a state: once it has come, `to` of `from`.
fn moved_by(clock: u64, date: u64, from: u8, to: u8, state: u8) -> u8
    ensures { result ≡ moved_by clock date from to state }
{
    if (state == from) & has_come(clock, date) {
        to
    } else {
        state
    }
}

// The state that a key's dates make of its state: first the activation, then the deactivation.
pub fn dated_state(clock: u64, activation: u64, deactivation: u64, state: u8) -> u8
    ensures { result ≡ dated_state clock activation deactivation state }
{
    let now = moved_by(clock, activation, rules::PRE_ACTIVE, rules::ACTIVE, state);
    moved_by(clock, deactivation, rules::ACTIVE, rules::DEACTIVATED, now)
}

// Whether an operation is an Activate that comes when the key's deactivation date has come.
pub fn is_late(operation: u32, clock: u64, deactivation: u64) -> bool
    ensures { result ≡ is_late operation clock deactivation }
{
    (operation == rules::ACTIVATE) & has_come(clock, deactivation)
}
