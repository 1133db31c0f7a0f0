// Names of keys: 1 to 32 bytes of text, as numbers, so that a record, a command and an answer can
// hold one. It knows nothing of TTLV, tables or keys, and asks nothing.
#![tactic(auto)]

ghost use Rattle.std.specs.Prelude.{◌≡◌};
ghost use Rattle.utf8.specs.Text.{text};
ghost use Rattle.names.specs.Names.{no_name, name_text, name_of, name_ok, same_name, shape_right};

use words::Words;

// A name as the table has it: the length byte, 0 where there is no name, the seven zeros as one
// number, and the 32 name bytes.
#[derive(Clone, Copy)]
pub struct Name {
    pub len: u8,
    pub zeros: u64,
    pub words: Words,
}

// No name.
pub fn no_name() -> Name
    ensures { result ≡ no_name }
{
    let words = Words {
        a: 0,
        b: 0,
        c: 0,
        d: 0,
    };
    Name {
        len: 0,
        zeros: 0,
        words,
    }
}

// Whether two names are the same, byte for byte. It looks at all of both.
pub fn same_name(m: Name, k: Name) -> bool
    ensures { result ≡ same_name m k }
{
    let v = m.words;
    let w = k.words;
    let heads = (m.len == k.len) & (m.zeros == k.zeros);
    heads & (v.a == w.a) & (v.b == w.b) & (v.c == w.c) & (v.d == w.d)
}

// The name that is so spelled. No more than 32 bytes are kept.
pub fn name_of(v: &[u8]) -> Name
    ensures { result ≡ name_of v.now }
{
    let len = octets::fewer(32, v.len()) as u8;
    let words = words::words_of(words::fill(v));
    Name {
        len,
        zeros: 0,
        words,
    }
}

// Whether bytes may be a name: 1 to 32 bytes of text.
pub fn name_ok(v: &[u8]) -> bool
    ensures { result ≡ name_ok v.now }
{
    if (v.len() < 1) | (32 < v.len()) {
        return false;
    }
    utf8::text_ok(v)
}

// Whether a name is stored as it has to be: at most 32 bytes long, the seven zeros zero, and zero
// past its length.
pub fn shape_right(m: Name) -> bool
    ensures { result ≡ shape_right m }
{
    let room = words::bytes_of(m.words);
    let len = octets::fewer(m.len as usize, 32);
    (m.len <= 32) & (m.zeros == 0) & octets::all_zero(&room[len..])
}

// Whether the bytes of a name are text.
pub fn text_right(m: Name) -> bool
    ensures { result ≡ text (name_text m) }
{
    let bytes = words::bytes_of(m.words);
    let end = octets::fewer(m.len as usize, 32);
    utf8::text_ok(&bytes[..end])
}
