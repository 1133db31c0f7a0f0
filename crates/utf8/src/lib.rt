// Text: whether bytes are whole characters of RFC 3629 (UTF-8). It knows nothing of TTLV or keys.
// Assumes nothing: no function asks anything.
#![tactic(auto)]

ghost use Rattle.std.specs.Prelude.{◌≡◌};
ghost use Rattle.octets.specs.Octets.{all};
ghost use Rattle.utf8.specs.Text.{is_plain, forms, begun, later, text};
ghost use Rattle.utf8.specs.Ranges.{to_come, ranges_of};

// What is still to come of a character: so many bytes, the next of them from low to high and the
// others any that continue a character.
#[derive(Clone, Copy)]
pub struct ToCome {
    pub more: u8,
    pub low: u8,
    pub high: u8,
}

impl ToCome {
    // What nothing can follow: no byte is from 1 to 0.
    const NOTHING: ToCome = ToCome {
        more: 1,
        low: 1,
        high: 0,
    };

    // So many bytes that continue a character; 0 between characters.
    fn tails(more: u8) -> ToCome
        ensures { result ≡ to_come more 0x80 0xBF }
    {
        ToCome {
            more,
            low: 0x80,
            high: 0xBF,
        }
    }

    // So many bytes, the next of them from low to high.
    fn next_from(more: u8, low: u8, high: u8) -> ToCome
        ensures { result ≡ to_come more low high }
    {
        ToCome { more, low, high }
    }
}

// What comes behind the first byte of a character.
fn begin(b: u8) -> ToCome
    ensures { ranges_of result ≡ begun b forms }
{
    if b <= 0x7F {
        return ToCome::tails(0);
    }
    if b < 0xC2 {
        return ToCome::NOTHING;
    }
    if b <= 0xDF {
        return ToCome::tails(1);
    }
    if b == 0xE0 {
        return ToCome::next_from(2, 0xA0, 0xBF);
    }
    if b == 0xED {
        return ToCome::next_from(2, 0x80, 0x9F);
    }
    if b <= 0xEF {
        return ToCome::tails(2);
    }
    if b == 0xF0 {
        return ToCome::next_from(3, 0x90, 0xBF);
    }
    if b == 0xF4 {
        return ToCome::next_from(3, 0x80, 0x8F);
    }
    if b <= 0xF3 {
        return ToCome::tails(3);
    }
    ToCome::NOTHING
}

// What is still to come after one byte more.
fn go_on(p: ToCome, b: u8) -> ToCome
    ensures { ranges_of result ≡ later (ranges_of p) b }
{
    if p.more == 0 {
        return begin(b);
    }
    if b < p.low {
        return ToCome::NOTHING;
    }
    if p.high < b {
        return ToCome::NOTHING;
    }
    ToCome::tails(p.more - 1)
}

// Whether bytes are text, byte by byte.
fn spelled(s: &[u8]) -> bool
    ensures { result ≡ text s.now }
{
    let mut p = ToCome::tails(0);
    for b in s {
        p = go_on(p, *b);
    }
    p.more == 0
}

// Whether every byte is a character by itself.
fn plain(s: &[u8]) -> bool
    ensures { result ≡ all is_plain s.now }
{
    octets::every(s, |b| b <= 0x7F)
}

// Whether bytes are text. Most texts are plain, and that is seen sooner.
pub fn text_ok(s: &[u8]) -> bool
    ensures { result ≡ text s.now }
{
    if plain(s) {
        return true;
    }
    spelled(s)
}
