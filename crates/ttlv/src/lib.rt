// The TTLV reader: what stands at the front of some bytes, and whether bytes are items by the
// rules. It knows nothing of keys. Assumes nothing: no public function asks anything of its bytes.
#![tactic(auto)]

ghost use Rattle.std.specs.Prelude.{◌≡◌, ◌+◌, ◌-◌, ◌^◌, ◌≤◌, ◌<◌, length};
ghost use Rattle.octets.specs.Maybe.{is_some};
ghost use Rattle.octets.specs.Octets.{part, all_zero};
ghost use Rattle.ttlv.specs.Parse.{headed, first_of, parse, message};

// A type stays the byte that was read: any may stand in an item's head.

// How deep an item may stand: the outermost has depth 1, and an item at depth 9 is malformed.
pub const DEPTH_MOST: usize = 8;

// What stands at the front of some bytes.
#[derive(Clone, Copy)]
pub enum First {
    // nothing: the run of items has ended
    End,
    // no item by the rules
    Bad,
    // an item with a value of len bytes, which start at 8; the next item starts at next
    Value {
        tag: u32,
        kind: u8,
        len: usize,
        next: usize,
    },
    // a structure, whose items stand from 8 to next; the next item starts at next
    Group {
        tag: u32,
        next: usize,
    },
}

// Whether the padding from stop to next is zeros, by the eight bytes that end with it: the bytes in
// front of it are shifted out. `head_first` shows the bounds.
fn padding_clear(s: &[u8], stop: usize, next: usize) -> bool
    requires { (stop ≤ next) × (next < stop + 8) × (8 ≤ next) × (next ≤ length s.now) }
    ensures { result ≡ all_zero (part s.now stop (next - stop)) }
{
    if next == stop {
        return true;
    }
    let from = next - 8;
    let before = stop - from;
    octets::number(&s[from..next]) << (before * 8) == 0
}

// The item whose head says tag, kind and n. `read_first` shows the eight bytes of the head and the
// bound of n.
fn head_first(s: &[u8], tag: u32, kind: u8, n: usize) -> First
    requires { (8 ≤ length s.now) × (n < 256 ^ 4) }
    ensures { result ≡ headed s.now tag kind n }
{
    if !ttlv_types::length_ok(kind, n) {
        return First::Bad;
    }
    let next = 8 + (n + 7) / 8 * 8;
    if s.len() < next {
        return First::Bad;
    }
    if kind == ttlv_types::STRUCTURE {
        return First::Group { tag, next };
    }
    let stop = 8 + n;
    if !ttlv_types::value_ok(kind, &s[8..stop]) {
        return First::Bad;
    }
    if !padding_clear(s, stop, next) {
        return First::Bad;
    }
    First::Value {
        tag,
        kind,
        len: n,
        next,
    }
}

// The item at the front of s.
pub fn read_first(s: &[u8]) -> First
    ensures { result ≡ first_of s.now }
{
    if s.len() == 0 {
        return First::End;
    }
    if s.len() < 8 {
        return First::Bad;
    }
    if s[0] != tags::LEAD {
        return First::Bad;
    }
    let tag = octets::number(&s[0..3]) as u32;
    let n = octets::number(&s[4..8]) as usize;
    head_first(s, tag, s[3], n)
}

// Whether s is a run of items by the rules, with structures at most `depth` deep.
#[tactic(auto, using(crate::proofs::Step::value_ends, crate::proofs::Step::group_ends))]
fn check(s: &[u8], depth: usize) -> bool
    ensures { result ≡ is_some (parse depth s.now) }
{
    if depth == 0 {
        return s.len() == 0;
    }
    let mut t = s;
    loop {
        match read_first(t) {
            First::End => return true,
            First::Bad => return false,
            First::Value { next, .. } => {
                t = &t[next..];
            }
            First::Group { next, .. } => {
                if !check(&t[8..next], depth - 1) {
                    return false;
                }
                t = &t[next..];
            }
        }
    }
}

// Whether s is one item by the rules and nothing behind it. Each byte is looked at once.
#[tactic(auto, using(crate::proofs::Step::group_ends))]
pub fn is_message(s: &[u8]) -> bool
    ensures { result ≡ is_some (message s.now) }
{
    match read_first(s) {
        First::End => false,
        First::Bad => false,
        First::Value { next, .. } => next == s.len(),
        First::Group { next, .. } => {
            if next != s.len() {
                return false;
            }
            check(&s[8..next], DEPTH_MOST - 1)
        }
    }
}
