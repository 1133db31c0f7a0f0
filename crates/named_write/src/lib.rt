// An identifier written into lent room, and, as laws, how writes of items compose. It asks nothing.
#![tactic(auto)]

ghost use Rattle.std.specs.Prelude.{true};
ghost use Rattle.ttlv_types.specs.Types.{text_string};
ghost use Rattle.ttlv_put.specs.Write.{WroteValue};
ghost use Rattle.identifier.specs.Identifier.{identifier};

// An identifier as a Text String. It asks nothing: it writes as the TTLV writers do, or answers 0.
pub fn write_named(out: &mut [u8], tag: u32, serial: u32) -> usize
    ensures { WroteValue true tag text_string (identifier serial) out.old out.new result }
{
    let text = identifier::text_of(serial);
    ttlv_write::write_text(out, tag, &text)
}
