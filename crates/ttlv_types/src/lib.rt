// The types of TTLV: their numbers, and the lengths and values that each allows.
// Assumes nothing: no function asks anything.
#![tactic(auto)]

ghost use Rattle.std.specs.Prelude.{◌≡◌, leb};
ghost use Rattle.octets.specs.Octets.{from_be};
ghost use Rattle.ttlv_types.specs.Types.{length_ok, value_ok};

// The types. Numbers and no enum: an item may say any number, and who looks at it takes any.
pub const STRUCTURE: u8 = 0x01;

pub const INTEGER: u8 = 0x02;

pub const LONG_INTEGER: u8 = 0x03;

pub const BIG_INTEGER: u8 = 0x04;

pub const ENUMERATION: u8 = 0x05;

pub const BOOLEAN: u8 = 0x06;

pub const TEXT_STRING: u8 = 0x07;

pub const BYTE_STRING: u8 = 0x08;

pub const DATE_TIME: u8 = 0x09;

pub const INTERVAL: u8 = 0x0A;

pub const DATE_TIME_EXTENDED: u8 = 0x0B;

// Whether a type allows a length.
pub fn length_ok(kind: u8, n: usize) -> bool
    ensures { result ≡ length_ok kind n }
{
    match kind {
        INTEGER | ENUMERATION | INTERVAL => n == 4,
        LONG_INTEGER | BOOLEAN | DATE_TIME | DATE_TIME_EXTENDED => n == 8,
        STRUCTURE => n % 8 == 0,
        BIG_INTEGER => 8 <= n && n % 8 == 0,
        _ => kind == TEXT_STRING || kind == BYTE_STRING,
    }
}

// Whether bytes spell 0 or 1, however many they are.
fn at_most_one(v: &[u8]) -> bool
    ensures { result ≡ leb (from_be v.now) 1 }
{
    match v.split_last() {
        Some((last, rest)) => octets::all_zero(rest) && *last <= 1,
        None => true,
    }
}

// Whether a type allows a value.
pub fn value_ok(kind: u8, v: &[u8]) -> bool
    ensures { result ≡ value_ok kind v.now }
{
    match kind {
        BOOLEAN => at_most_one(v),
        TEXT_STRING => utf8::text_ok(v),
        _ => true,
    }
}
