// What the TTLV writers share: one item over the front of lent room, or the head of a structure.
// Each answers the bytes written, or 0 with the room as it was; so it does where the tag is none.
// `spell_number` and `spell_value` are inner parts and no writers for a host: they spell what they
// are given, also where the type does not allow such a value and the item would not read back. The
// writer of ttlv_numbers, over a type for each kind of number, and those of ttlv_write, one for each
// other type, see to that.
#![tactic(auto)]

ghost use Rattle.std.specs.Prelude.{◌≡◌, true, ◌≤◌, ◌<◌, length};
ghost use Rattle.std.proofs.lemmas.List.Edits.{sets};
ghost use Rattle.ttlv.specs.Items.{head};
ghost use Rattle.ttlv_put.specs.Write.{WroteNumber, WroteValue, WroteHead};

// A type stays a number: `spell_number` and `spell_value` spell any.

// The head of an item. Each caller shows the room.
fn put_head(out: &mut [u8], tag: u32, kind: u8, n: usize)
    requires { 8 ≤ length out.old }
    ensures { out.new ≡ sets out.old 0 (head tag kind n) }
{
    octets::put(out, 0, 3, tag as u64);
    octets::put(out, 3, 1, kind as u64);
    octets::put(out, 4, 4, n as u64);
}

// An item with a value of `width` bytes, 1 to 8 of them, which takes 16 in all.
pub fn spell_number(out: &mut [u8], tag: u32, kind: u8, width: usize, bits: u64) -> usize
    ensures { WroteNumber width tag kind bits out.old out.new result }
{
    if !tags::tag_ok(tag) {
        return 0;
    }
    if width < 1 {
        return 0;
    }
    if 8 < width {
        return 0;
    }
    if out.len() < 16 {
        return 0;
    }
    put_head(out, tag, kind, width);
    octets::put(out, 8, width, bits);
    octets::put(out, 8 + width, 8 - width, 0);
    16
}

// An item with a value of any length. The caller looks at whether the type allows the value.
pub fn spell_value(out: &mut [u8], tag: u32, kind: u8, s: &[u8]) -> usize
    ensures { WroteValue true tag kind s.now out.old out.new result }
{
    if !tags::tag_ok(tag) {
        return 0;
    }
    let n = s.len();
    if n > 0xFFFFFFFF {
        return 0;
    }
    let full = (n + 7) / 8 * 8;
    let end = 8 + full;
    if out.len() < end {
        return 0;
    }
    put_head(out, tag, kind, n);
    octets::put_all(out, 8, s);
    octets::put(out, 8 + n, full - n, 0);
    end
}

// The head of a structure whose body has len bytes; the body stands behind it, or is written there
// next.
pub fn write_structure(out: &mut [u8], tag: u32, len: usize) -> usize
    ensures { WroteHead tag len out.old out.new result }
{
    if !tags::tag_ok(tag) {
        return 0;
    }
    if len > 0xFFFFFFFF {
        return 0;
    }
    if !ttlv_types::length_ok(ttlv_types::STRUCTURE, len) {
        return 0;
    }
    if out.len() < 8 {
        return 0;
    }
    put_head(out, tag, ttlv_types::STRUCTURE, len);
    8
}
