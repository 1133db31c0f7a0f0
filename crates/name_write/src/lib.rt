// The writer of a key's name in lent room: Name with its value and its type. It does not look at
// whether the name is text: names of a sound table are.
// What a function asks, the room, is shown by its callers: here, or for `write_name` in the writer
// of attributes.
#![tactic(auto)]

ghost use Rattle.std.specs.Prelude.{◌≤◌, length};
ghost use Rattle.ttlv_types.specs.Types.{enumeration, text_string};
ghost use Rattle.ttlv.specs.Items.{nil, value};
ghost use Rattle.tags.specs.Tags.{name_type, name_value};
ghost use Rattle.names.specs.Names.{name_text};
ghost use Rattle.name_read.specs.Name.{uninterpreted_text};
ghost use Rattle.answer.specs.Respond.{word, name_items};
ghost use Rattle.named_write.specs.Puts.{Puts};

use names::Name;
use ttlv_numbers::Enumeration;

// The one type of names.
const UNINTERPRETED_TEXT: u32 = 1;

// The Name Value: the bytes of the name.
fn write_name_value(out: &mut [u8], name: Name) -> usize
    requires { 40 ≤ length out.old }
    ensures { Puts 40 (value name_value text_string (name_text name) nil) out.old out.new result }
{
    let words = name.words;
    let bytes = words::bytes_of(words);
    let n = octets::fewer(name.len as usize, 32);
    ttlv_put::spell_value(out, tags::NAME_VALUE, ttlv_types::TEXT_STRING, &bytes[..n])
}

// The items of Name: its value and its type.
fn write_name_body(out: &mut [u8], name: Name) -> usize
    requires { 56 ≤ length out.old }
    ensures { Puts 56 (value name_value text_string (name_text name) (word name_type enumeration uninterpreted_text nil)) out.old out.new result }
{
    let n = write_name_value(out, name);
    ttlv_numbers::write_number(
        &mut out[n..],
        tags::NAME_TYPE,
        Enumeration(UNINTERPRETED_TEXT),
    );
    n + 16
}

// The structure Name; nothing where there is no name.
pub fn write_name(out: &mut [u8], name: Name) -> usize
    requires { 64 ≤ length out.old }
    ensures { Puts 64 (name_items name nil) out.old out.new result }
{
    if name.len == 0 {
        return 0;
    }
    ttlv_around::write_around(out, tags::NAME, |room| write_name_body(room, name))
}
