// The TTLV writers of values of any length, one for each type: one item over the front of lent
// room. The writers of numbers stand in ttlv_numbers. They know nothing of keys. Assumes nothing. A
// writer answers the bytes written, or 0 with the room as it was; so it does where the tag is none.
#![tactic(auto)]

ghost use Rattle.std.specs.Prelude.{true, length};
ghost use Rattle.utf8.specs.Text.{text};
ghost use Rattle.ttlv_types.specs.Types.{big_integer, text_string, byte_string, length_ok};
ghost use Rattle.ttlv_put.specs.Write.{WroteValue};

// Any bytes.
pub fn write_bytes(out: &mut [u8], tag: u32, s: &[u8]) -> usize
    ensures { WroteValue true tag byte_string s.now out.old out.new result }
{
    ttlv_put::spell_value(out, tag, ttlv_types::BYTE_STRING, s)
}

// 0 where the bytes are no text.
pub fn write_text(out: &mut [u8], tag: u32, s: &[u8]) -> usize
    ensures { WroteValue (text s.now) tag text_string s.now out.old out.new result }
{
    if !utf8::text_ok(s) {
        return 0;
    }
    ttlv_put::spell_value(out, tag, ttlv_types::TEXT_STRING, s)
}

// The bytes are those of the signed number, in two's complement: a multiple of 8 of them, and not
// none.
pub fn write_big_integer(out: &mut [u8], tag: u32, s: &[u8]) -> usize
    ensures { WroteValue (length_ok big_integer (length s.now)) tag big_integer s.now out.old out.new result }
{
    if !ttlv_types::length_ok(ttlv_types::BIG_INTEGER, s.len()) {
        return 0;
    }
    ttlv_put::spell_value(out, tag, ttlv_types::BIG_INTEGER, s)
}
