// The clock and its 64 bits, as a Date-Time is written: two's complement.
// Assumes nothing: any clock and any bits are taken.
#![tactic(auto)]

ghost use Rattle.std.specs.Prelude.{◌≡◌};
ghost use Rattle.std.specs.Int.{w64};
ghost use Rattle.std.proofs.Common.{of_z, to_z};

// The bits of a clock.
pub fn bits_of(clock: i64) -> u64
    ensures { result ≡ of_z w64 clock }
{
    if clock < 0 {
        let k = (-1 - clock) as u64;
        18446744073709551615 - k
    } else {
        clock as u64
    }
}

// The clock of these bits.
pub fn clock_of(bits: u64) -> i64
    ensures { result ≡ to_z w64 bits }
{
    if bits < 9223372036854775808 {
        bits as i64
    } else {
        -1 - ((18446744073709551615 - bits) as i64)
    }
}
