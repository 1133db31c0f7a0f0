// A message written again from what the reader says of each of its items: the reader and the writer
// undo each other. Assumes nothing. It knows nothing of keys.
#![tactic(auto)]

ghost use Rattle.std.specs.Prelude.{◌≡◌, true, ◌≤◌, ◌<◌, length};
ghost use Rattle.ttlv_types.specs.Types.{structure, boolean, is_word, is_long, length_ok, value_ok};
ghost use Rattle.ttlv.specs.Tree.{is_run};
ghost use Rattle.ttlv_put.specs.Write.{WroteNumber, WroteValue};
ghost use Rattle.rewrite.specs.Again.{Again, Rewrote};

use ttlv::First;
use ttlv_numbers::{
    Boolean, DateTime, DateTimeExtended, Enumeration, Integer, Interval, LongInteger,
};

// A type stays the number that `ttlv::read_first` answers.

// A number of four bytes by the writer of its type. `rewrite_value` shows that the type has four.
fn rewrite_word(out: &mut [u8], tag: u32, kind: u8, bits: u32) -> usize
    requires { is_word kind ≡ true }
    ensures { WroteNumber 4 tag kind bits out.old out.new result }
{
    match kind {
        ttlv_types::INTEGER => ttlv_numbers::write_number(out, tag, Integer(bits)),
        ttlv_types::ENUMERATION => ttlv_numbers::write_number(out, tag, Enumeration(bits)),
        _ => ttlv_numbers::write_number(out, tag, Interval(bits)),
    }
}

// A number of eight bytes by the writer of its type. `rewrite_value` shows that the type has eight,
// and that a Boolean is 0 or 1.
fn rewrite_long(out: &mut [u8], tag: u32, kind: u8, bits: u64) -> usize
    requires { (is_long kind ≡ true) × (kind ≡ boolean → bits ≤ 1) }
    ensures { WroteNumber 8 tag kind bits out.old out.new result }
{
    match kind {
        ttlv_types::BOOLEAN => ttlv_numbers::write_number(out, tag, Boolean(bits == 1)),
        ttlv_types::LONG_INTEGER => ttlv_numbers::write_number(out, tag, LongInteger(bits)),
        ttlv_types::DATE_TIME => ttlv_numbers::write_number(out, tag, DateTime(bits)),
        _ => ttlv_numbers::write_number(out, tag, DateTimeExtended(bits)),
    }
}

// A value by the writer of its type. `rewrite_first` shows that the type allows it.
fn rewrite_value(out: &mut [u8], tag: u32, kind: u8, v: &[u8]) -> usize
    requires { (kind ≡ structure → ⊥) × (length_ok kind (length v.now) ≡ true) × (value_ok kind v.now ≡ true) }
    ensures { WroteValue true tag kind v.now out.old out.new result }
{
    match kind {
        ttlv_types::TEXT_STRING => ttlv_write::write_text(out, tag, v),
        ttlv_types::BYTE_STRING => ttlv_write::write_bytes(out, tag, v),
        ttlv_types::BIG_INTEGER => ttlv_write::write_big_integer(out, tag, v),
        _ if v.len() == 4 => rewrite_word(out, tag, kind, octets::number(v) as u32),
        _ => rewrite_long(out, tag, kind, octets::number(v)),
    }
}

// The item at the front of t again over the front of out; of a structure, its head. `rewrite` shows
// that t is a run of items, not empty, and fits.
fn rewrite_first(out: &mut [u8], t: &[u8]) -> usize
    requires { (0 < length t.now) × ((is_run t.now ≡ true) × (length t.now ≤ length out.old)) }
    ensures { Again t.now out.old out.new result }
{
    match ttlv::read_first(t) {
        First::End => 0,
        First::Bad => 0,
        First::Value { tag, kind, len, .. } => {
            let stop = 8 + len;
            rewrite_value(out, tag, kind, &t[8..stop])
        }
        First::Group { tag, next } => ttlv_put::write_structure(out, tag, next - 8),
    }
}

// The message s again over the front of out, item by item: its size, or 0 where s is no message or
// out is short.
pub fn rewrite(out: &mut [u8], s: &[u8]) -> usize
    ensures { Rewrote s.now out.old out.new result }
{
    if !ttlv::is_message(s) {
        return 0;
    }
    if out.len() < s.len() {
        return 0;
    }
    let mut at: usize = 0;
    let mut t = s;
    while 0 < t.len() {
        let n = rewrite_first(&mut out[at..], t);
        at += n;
        t = &t[n..];
    }
    at
}
