// What stands in the lines of a script: decimal numbers, clocks and parts of a buffer. Assumes
// nothing: any bytes are read, and what is none of these is told.
#![tactic(auto)]

ghost use Rattle.std.specs.Prelude.{◌≡◌};
ghost use Rattle.script.specs.Numbers.{decimal_of, number_in, from_zero, below_zero, clock_in, span_in};

// 2 to the 63rd: the first number that is no clock, and the last whose negative is one.
const CLOCK_TOP: usize = 0x8000000000000000;

// Where bytes start and how many they are.
#[derive(Clone, Copy)]
pub struct Span {
    pub at: usize,
    pub len: usize,
}

// The digit of a character, if it is one.
fn decimal(c: u8) -> Option<usize>
    ensures { result ≡ decimal_of c }
{
    if (b'0' <= c) & (c <= b'9') {
        Some((c - b'0') as usize)
    } else {
        None
    }
}

// A decimal number: one digit or more, at most 2^64 - 1.
pub fn number_in(s: &[u8]) -> Option<usize>
    ensures { result ≡ number_in s.now }
{
    if s.is_empty() {
        return None;
    }
    let mut n: usize = 0;
    for c in s {
        let d = decimal(*c)?;
        let tens = n.checked_mul(10)?;
        n = tens.checked_add(d)?;
    }
    Some(n)
}

// A number without a sign, as a clock.
fn from_zero(n: usize) -> Option<i64>
    ensures { result ≡ from_zero n }
{
    if n < CLOCK_TOP {
        Some(clock::clock_of(n as u64))
    } else {
        None
    }
}

// A number behind a minus sign, as a clock; there is no -0.
fn below_zero(n: usize) -> Option<i64>
    ensures { result ≡ below_zero n }
{
    if n == 0 {
        return None;
    }
    if CLOCK_TOP < n {
        return None;
    }
    Some(clock::clock_of(u64::MAX - ((n - 1) as u64)))
}

// A decimal number from -2^63 to 2^63 - 1.
pub fn clock_in(s: &[u8]) -> Option<i64>
    ensures { result ≡ clock_in s.now }
{
    if s.is_empty() {
        return None;
    }
    if s[0] == b'-' {
        return below_zero(number_in(&s[1..])?);
    }
    from_zero(number_in(s)?)
}

// Two decimal numbers with a blank between them: where bytes start and how many they are.
pub fn span_in(s: &[u8]) -> Option<Span>
    ensures { result ≡ span_in s.now }
{
    let gap = lines::find(s, b' ');
    let from = lines::past(s, gap);
    let at = number_in(&s[..gap])?;
    let len = number_in(&s[from..])?;
    Some(Span { at, len })
}
