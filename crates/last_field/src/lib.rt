// A field with nothing behind it, the last of its run: a number or a structure that ends where the
// bytes end. Like `fields` it knows nothing of keys. Assumes nothing: no function asks anything of
// its bytes. The readers of requests go by `runs`; for a reader of bytes alone these two stand, and
// with them their promises (`only_number_unique`, `only_body_unique`).
#![tactic(auto)]

ghost use Rattle.std.specs.Prelude.{◌≡◌};
ghost use Rattle.last_field.specs.Last.{only_number_at, only_body_at};

// A type stays a number, as in `fields`: `only_number` looks for any.

// The number of the item at the front, if it has this tag and type and nothing is behind it.
pub fn only_number(s: &[u8], tag: u32, kind: u8) -> Option<(u64, usize)>
    ensures { result ≡ only_number_at s.now tag kind }
{
    let (value, next) = fields::number_field(s, tag, kind)?;
    if next != s.len() {
        return None;
    }
    Some((value, next))
}

// Where the structure at the front ends, if it has this tag and nothing is behind it.
pub fn only_body(s: &[u8], tag: u32) -> Option<usize>
    ensures { result ≡ only_body_at s.now tag }
{
    let end = fields::body_field(s, tag)?;
    if end != s.len() {
        return None;
    }
    Some(end)
}
