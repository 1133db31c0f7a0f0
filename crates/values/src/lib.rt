// The values that a key may have. The soundness check and the reader of Create go by the same
// tests, and Create by one more. Assumes nothing: any number gets an answer.
#![tactic(auto)]

ghost use Rattle.std.specs.Prelude.{◌≡◌};
ghost use Rattle.values.specs.Values.{bits_ok, mask_ok, protects, unit_ok, total_ok, not_negative, above_zero, in_order};

// A length in bits.
pub fn bits_ok(bits: u64) -> bool
    ensures { result ≡ bits_ok bits }
{
    (bits == 128) | (bits == 192) | (bits == 256)
}

// A usage mask.
pub fn mask_ok(mask: u64) -> bool
    ensures { result ≡ mask_ok mask }
{
    mask <= 0x00FFFFFF
}

// The bits of a usage mask with which a key can apply protection.
const SIGN: u64 = 1;

const ENCRYPT: u64 = 4;

const MAC_GENERATE: u64 = 0x80;

// Whether a mask has one of them: Create takes a usage limit for no other. The soundness check does
// not ask it.
pub fn protects(mask: u64) -> bool
    ensures { result ≡ protects mask }
{
    (mask / SIGN % 2 == 1) | (mask / ENCRYPT % 2 == 1) | (mask / MAC_GENERATE % 2 == 1)
}

// The unit of a usage limit.
pub fn unit_ok(unit: u64) -> bool
    ensures { result ≡ unit_ok unit }
{
    (unit == 1) | (unit == 2)
}

// The total of a usage limit.
pub fn total_ok(total: u64) -> bool
    ensures { result ≡ total_ok total }
{
    (1..=1_000_000_000_000).contains(&total)
}

// The first number of 64 bits that stands for a negative one.
const NEGATIVE: u64 = 0x8000000000000000;

// A date or a clock, as its 64 bits, that is not negative.
pub fn not_negative(bits: u64) -> bool
    ensures { result ≡ not_negative bits }
{
    bits < NEGATIVE
}

// The same, from 1 up.
pub fn above_zero(bits: u64) -> bool
    ensures { result ≡ above_zero bits }
{
    (1..NEGATIVE).contains(&bits)
}

// Two dates, 0 where one is not set: where both are, the deactivation is not before the activation.
pub fn in_order(activation: u64, deactivation: u64) -> bool
    ensures { result ≡ in_order activation deactivation }
{
    (deactivation == 0) | (activation <= deactivation)
}
