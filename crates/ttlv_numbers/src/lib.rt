// The TTLV writer of numbers, one for all their types: one item of 16 bytes over the front of lent
// room. It knows nothing of keys. Assumes nothing. It answers the bytes written, or 0 with the room
// as it was; so it does where the tag is none.
#![tactic(auto)]

ghost use Rattle.std.specs.Prelude.{◌≡◌, ℕ};
ghost use Rattle.ttlv_types.specs.Types.{integer, long_integer, enumeration, boolean, date_time, interval, date_time_extended};
ghost use Rattle.ttlv_put.specs.Write.{WroteNumber};
ghost use Rattle.ttlv_numbers.specs.Allowed.{Allowed, integer_allowed, enumeration_allowed, interval_allowed, long_integer_allowed, date_time_allowed, date_time_extended_allowed, boolean_allowed};
ghost use Rattle.ttlv_numbers.specs.Bit.{bit};

// What TTLV spells as a number: the number of its type, how many bytes its value has, and its bits.
pub trait Number {
    ghost kind: { ℕ };

    ghost width: { ℕ };

    ghost bits: { Self → ℕ };

    // The three, in one line of each type.
    fn spelled(self) -> (u8, usize, u64)
        ensures { (result.0 ≡ kind) × (result.1 ≡ width) × (result.2 ≡ bits self) };

    // What is spelled is a value that its type allows, so that the item reads back.
    ghost allowed: { (n : Self) → Allowed kind width (bits n) };
}

// The bits are those of the signed number, in two's complement.
#[derive(Clone, Copy)]
pub struct Integer(pub u32);

impl Number for Integer {
    ghost kind = { integer };

    ghost width = { 4 };

    ghost bits = { λ n. n.0 };

    fn spelled(self) -> (u8, usize, u64) {
        (ttlv_types::INTEGER, 4, u64::from(self.0))
    }

    ghost allowed = { λ n. integer_allowed n.0 };
}

// The bits are the number of the choice.
#[derive(Clone, Copy)]
pub struct Enumeration(pub u32);

impl Number for Enumeration {
    ghost kind = { enumeration };

    ghost width = { 4 };

    ghost bits = { λ n. n.0 };

    fn spelled(self) -> (u8, usize, u64) {
        (ttlv_types::ENUMERATION, 4, u64::from(self.0))
    }

    ghost allowed = { λ n. enumeration_allowed n.0 };
}

// The bits are the number of seconds.
#[derive(Clone, Copy)]
pub struct Interval(pub u32);

impl Number for Interval {
    ghost kind = { interval };

    ghost width = { 4 };

    ghost bits = { λ n. n.0 };

    fn spelled(self) -> (u8, usize, u64) {
        (ttlv_types::INTERVAL, 4, u64::from(self.0))
    }

    ghost allowed = { λ n. interval_allowed n.0 };
}

// The bits are those of the signed number, in two's complement.
#[derive(Clone, Copy)]
pub struct LongInteger(pub u64);

impl Number for LongInteger {
    ghost kind = { long_integer };

    ghost width = { 8 };

    ghost bits = { λ n. n.0 };

    fn spelled(self) -> (u8, usize, u64) {
        (ttlv_types::LONG_INTEGER, 8, self.0)
    }

    ghost allowed = { λ n. long_integer_allowed n.0 };
}

// The bits are those of the signed number of seconds, in two's complement.
#[derive(Clone, Copy)]
pub struct DateTime(pub u64);

impl Number for DateTime {
    ghost kind = { date_time };

    ghost width = { 8 };

    ghost bits = { λ n. n.0 };

    fn spelled(self) -> (u8, usize, u64) {
        (ttlv_types::DATE_TIME, 8, self.0)
    }

    ghost allowed = { λ n. date_time_allowed n.0 };
}

// The bits are those of the signed number of microseconds, in two's complement.
#[derive(Clone, Copy)]
pub struct DateTimeExtended(pub u64);

impl Number for DateTimeExtended {
    ghost kind = { date_time_extended };

    ghost width = { 8 };

    ghost bits = { λ n. n.0 };

    fn spelled(self) -> (u8, usize, u64) {
        (ttlv_types::DATE_TIME_EXTENDED, 8, self.0)
    }

    ghost allowed = { λ n. date_time_extended_allowed n.0 };
}

// 1 for true, 0 for false.
#[derive(Clone, Copy)]
pub struct Boolean(pub bool);

impl Number for Boolean {
    ghost kind = { boolean };

    ghost width = { 8 };

    ghost bits = { λ b. bit b.0 };

    fn spelled(self) -> (u8, usize, u64) {
        (ttlv_types::BOOLEAN, 8, u64::from(self.0))
    }

    ghost allowed = { λ b. boolean_allowed b.0 };
}

// A number under a tag.
pub fn write_number<N: Number>(out: &mut [u8], tag: u32, number: N) -> usize
    ensures { WroteNumber N.width tag N.kind (N.bits number) out.old out.new result }
{
    let (kind, width, bits) = number.spelled();
    ttlv_put::spell_number(out, tag, kind, width, bits)
}
