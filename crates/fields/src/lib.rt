// The fields of a run of items, first to last: what the readers of requests go by. It knows nothing
// of keys. Assumes nothing: no function asks anything of its bytes.
#![tactic(auto)]

ghost use Rattle.std.specs.Prelude.{◌≡◌};
ghost use Rattle.fields.specs.Found.{starts_at, bytes_at, number_at, body_at};

use ttlv::First;

// A type stays the number that it is on the wire: `bytes_field` and `number_field` look for any.

// Whether an item with this tag stands at the front. Another tag is seen by its three bytes.
pub fn starts_with(s: &[u8], tag: u32) -> bool
    ensures { result ≡ starts_at s.now tag }
{
    if s.len() < 8 {
        return false;
    }
    let front = octets::number(&s[0..3]) as u32;
    if front != tag {
        return false;
    }
    match ttlv::read_first(s) {
        First::End | First::Bad => false,
        First::Value { .. } => true,
        First::Group { .. } => true,
    }
}

// The value of the item at the front, if it has this tag and type: its length, and where the rest
// of the run starts. The value starts at 8.
pub fn bytes_field(s: &[u8], tag: u32, kind: u8) -> Option<(usize, usize)>
    ensures { result ≡ bytes_at s.now tag kind }
{
    let First::Value {
        tag: found,
        kind: typed,
        len,
        next,
    } = ttlv::read_first(s)
    else {
        return None;
    };
    if found != tag || typed != kind {
        return None;
    }
    Some((len, next))
}

// The number that the value of the item at the front spells, if it has this tag and type, and where
// the rest of the run starts; it reads at most eight bytes.
pub fn number_field(s: &[u8], tag: u32, kind: u8) -> Option<(u64, usize)>
    ensures { result ≡ number_at s.now tag kind }
{
    let (len, next) = bytes_field(s, tag, kind)?;
    let stop = 8 + len;
    Some((octets::number(&s[8..stop]), next))
}

// Where the structure at the front ends, if it has this tag: its items start at 8, and the rest of
// the run starts there.
pub fn body_field(s: &[u8], tag: u32) -> Option<usize>
    ensures { result ≡ body_at s.now tag }
{
    let First::Group { tag: named, next } = ttlv::read_first(s) else {
        return None;
    };
    if named != tag {
        return None;
    }
    Some(next)
}
