// Thirty-two bytes as four numbers, so that an answer that is an enum can hold them: an enum holds
// numbers and no array. Where a function asks for room, every caller shows it. It knows nothing of keys.
#![tactic(auto)]

ghost use Rattle.std.specs.Prelude.{◌≡◌, ◌+◌, ◌≤◌, length};
ghost use Rattle.std.proofs.lemmas.List.Edits.{sets};
ghost use Rattle.octets.specs.Octets.{part};
ghost use Rattle.words.specs.Words.{words_size, words_of, word_bytes, filled};

// The first eight bytes as a number, the next eight, and so on; the highest byte first.
#[derive(Clone, Copy)]
pub struct Words {
    pub a: u64,
    pub b: u64,
    pub c: u64,
    pub d: u64,
}

// The four numbers that the 32 bytes from `at` on spell. The caller shows that they are there.
pub fn words_at(s: &[u8], at: usize) -> Words
    requires { at + words_size ≤ length s.now }
    ensures { result ≡ words_of (part s.now at words_size) }
{
    Words {
        a: octets::number_at(s, at, 8),
        b: octets::number_at(s, at + 8, 8),
        c: octets::number_at(s, at + 16, 8),
        d: octets::number_at(s, at + 24, 8),
    }
}

// The four numbers that 32 bytes spell.
pub fn words_of(bytes: [u8; 32]) -> Words
    ensures { result ≡ words_of bytes }
{
    words_at(&bytes, 0)
}

// Writes the 32 bytes that spell four numbers from `at` on. The caller shows that there is room.
pub fn put_words(t: &mut [u8], at: usize, w: Words)
    requires { at + words_size ≤ length t.old }
    ensures { t.new ≡ sets t.old at (word_bytes w) }
{
    octets::put(t, at, 8, w.a);
    octets::put(t, at + 8, 8, w.b);
    octets::put(t, at + 16, 8, w.c);
    octets::put(t, at + 24, 8, w.d);
}

// The 32 bytes that spell four numbers.
pub fn bytes_of(w: Words) -> [u8; 32]
    ensures { result ≡ word_bytes w }
{
    let mut bytes = [0u8; 32];
    put_words(&mut bytes, 0, w);
    bytes
}

// Bytes with zeros behind them, 32 in all; no more than the first 32 are kept.
pub fn fill(v: &[u8]) -> [u8; 32]
    ensures { result ≡ filled v.now }
{
    let mut bytes = [0u8; 32];
    let end = octets::fewer(v.len(), 32);
    octets::put_all(&mut bytes, 0, &v[..end]);
    bytes
}
