// The target of an item: the record that it is about, by the identifier at the front of a payload
// or by the placeholder. It looks at no table. Assumes nothing: no function asks anything of its
// bytes.
#![tactic(auto)]

ghost use Rattle.std.specs.Prelude.{◌≡◌};
ghost use Rattle.fields.specs.Found.{starts_in};
ghost use Rattle.target_read.specs.Readers.{target_at};

use ttlv::First;

// The record that an item is about: the one whose serial its identifier text names, 0 where it
// names none; or the placeholder's.
#[derive(Clone, Copy)]
pub enum Target {
    Placeholder,
    Serial { serial: u32 },
}

// Whether an item is there and has this tag.
fn is_tagged(item: First, tag: u32) -> bool
    ensures { result ≡ starts_in tag item }
{
    match item {
        First::End => false,
        First::Bad => false,
        First::Value {
            tag: found,
            kind: _,
            len: _,
            next: _,
        } => found == tag,
        First::Group {
            tag: found,
            next: _,
        } => found == tag,
    }
}

// The target at the front and where the rest of the run starts, its item read once. No identifier is
// given where no item with its tag stands there; one that is no Text String is Invalid Field.
pub fn read_target(s: &[u8]) -> Option<(Target, usize)>
    ensures { result ≡ target_at s.now }
{
    let item = ttlv::read_first(s);
    if !is_tagged(item, tags::UNIQUE_IDENTIFIER) {
        return Some((Target::Placeholder, 0));
    }
    let First::Value {
        tag: _,
        kind,
        len,
        next,
    } = item
    else {
        return None;
    };
    if kind != ttlv_types::TEXT_STRING {
        return None;
    }
    let stop = 8 + len;
    let serial = identifier::serial_of(&s[8..stop]);
    Some((Target::Serial { serial }, next))
}
