// Numbers and runs of bytes in lent bytes, the highest byte first: the layer under everything else.
// It knows nothing of TTLV, tables or keys. Where a function asks for room, every caller shows it.
#![tactic(auto)]

ghost use Rattle.std.specs.Prelude.{ℕ, Bool, ◌≡◌, ◌+◌, ◌^◌, ◌≤◌, ◌<◌, min, length, take};
ghost use Rattle.std.proofs.lemmas.List.Edits.{sets};
ghost use Rattle.octets.specs.Octets.{be, from_be, part, all, is_zero};

// The lower of two numbers.
pub fn fewer(a: usize, b: usize) -> usize
    ensures { result ≡ min a b }
{
    a.min(b)
}

// The number that at most four bytes spell. `number` shows that there are no more.
fn word(s: &[u8]) -> u32
    requires { length s.now ≤ 4 }
    ensures { (result ≡ from_be s.now) × (result < 256 ^ length s.now) }
{
    let mut n: u32 = 0;
    for b in s {
        n = n * 256 + u32::from(*b);
    }
    n
}

// The number that the first eight bytes of s spell, or all of them where there are fewer: one
// function for every width. It is put together of two words, because a compiler makes one load of
// four bytes and not of eight.
pub fn number(s: &[u8]) -> u64
    ensures { (result ≡ from_be (take 8 s.now)) × (result < 256 ^ length (take 8 s.now)) }
{
    let end = fewer(8, s.len());
    if end <= 4 {
        return word(&s[..end]) as u64;
    }
    let middle = end - 4;
    let high = word(&s[..middle]) as u64;
    let low = word(&s[middle..end]) as u64;
    high * 0x1_0000_0000 + low
}

// The number that `width` bytes from `at` on spell: one reader for every field of a record.
pub fn number_at(s: &[u8], at: usize, width: usize) -> u64
    requires { (at + width ≤ length s.now) × (width ≤ 8) }
    ensures { (result ≡ from_be (part s.now at width)) × (result < 256 ^ width) }
{
    number(&s[at..at + width])
}

// Writes v as `width` bytes from `at` on: one function for every width.
pub fn put(t: &mut [u8], at: usize, width: usize, v: u64)
    requires { at + width ≤ length t.old }
    ensures { t.new ≡ sets t.old at (be width v) }
{
    let mut rest = v;
    for k in (0..width).rev() {
        t[at + k] = (rest % 256) as u8;
        rest /= 256;
    }
}

// Writes the bytes of s from `at` on. By a loop and not by std's copy, which asks the C library for
// `memmove`: the archive for C is promised to need `memcpy` and `memset` alone.
pub fn put_all(t: &mut [u8], at: usize, s: &[u8])
    requires { at + length s.now ≤ length t.old }
    ensures { t.new ≡ sets t.old at s.now }
{
    for k in 0..s.len() {
        t[at + k] = s[k];
    }
}

// Whether every byte passes a test. It looks at all of them, with no way out between them, so that
// a compiler can take many at once.
pub fn every<F: Fn(u8) -> bool>(s: &[u8], test: F) -> bool
    requires { F.IsAlwaysCallable test }
    ensures { (p : ℕ → Bool) → ((x : ℕ) → (r : Bool) → x < 256 → F.post test x r → r ≡ p x) → result ≡ all p s.now }
{
    let mut clear = true;
    for b in s {
        clear = clear & test(*b);
    }
    clear
}

// Whether s holds nothing but zeros.
pub fn all_zero(s: &[u8]) -> bool
    ensures { result ≡ all is_zero s.now }
{
    every(s, |b| b == 0)
}
