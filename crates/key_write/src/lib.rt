// The writer of a key that is handed out, in lent room: Symmetric Key with its Key Block.
// What a function asks, the room, is shown by its callers: here, or for `write_key` in the writer
// of answers.
#![tactic(auto)]

ghost use Rattle.std.specs.Prelude.{◌≤◌, length};
ghost use Rattle.ttlv_types.specs.Types.{integer, enumeration, byte_string};
ghost use Rattle.ttlv.specs.Items.{nil, value, group};
ghost use Rattle.tags.specs.Tags.{cryptographic_algorithm, cryptographic_length, key_block, key_material};
ghost use Rattle.attributes_read.specs.Attributes.{aes};
ghost use Rattle.answer.specs.Respond.{word, material_of, key_value_items, key_block_items, key_items};
ghost use Rattle.named_write.specs.Puts.{Puts};

use plans::Key;
use ttlv_numbers::{Enumeration, Integer};

// Values of Enumerations.
const RAW: u32 = 1;

const AES: u32 = 3;

// The bytes of material that there can be.
const MATERIAL_MOST: usize = 32;

// The material at its length.
fn write_material(out: &mut [u8], key: Key) -> usize
    requires { 40 ≤ length out.old }
    ensures { Puts 40 (value key_material byte_string (material_of key) nil) out.old out.new result }
{
    let material = key.material;
    let bytes = words::bytes_of(material);
    let n = octets::fewer((key.bits / 8) as usize, MATERIAL_MOST);
    ttlv_write::write_bytes(out, tags::KEY_MATERIAL, &bytes[..n])
}

// The Key Value: the material alone.
fn write_key_value(out: &mut [u8], key: Key) -> usize
    requires { 48 ≤ length out.old }
    ensures { Puts 48 (key_value_items (material_of key) nil) out.old out.new result }
{
    ttlv_around::write_around(out, tags::KEY_VALUE, |room| write_material(room, key))
}

// Algorithm and length.
fn write_form(out: &mut [u8], bits: u32) -> usize
    requires { 32 ≤ length out.old }
    ensures { Puts 32 (word cryptographic_algorithm enumeration aes (word cryptographic_length integer bits nil)) out.old out.new result }
{
    ttlv_numbers::write_number(out, tags::CRYPTOGRAPHIC_ALGORITHM, Enumeration(AES));
    ttlv_numbers::write_number(&mut out[16..], tags::CRYPTOGRAPHIC_LENGTH, Integer(bits));
    32
}

// The items of the Key Block.
fn write_block_items(out: &mut [u8], key: Key) -> usize
    requires { 96 ≤ length out.old }
    ensures { Puts 96 (key_block_items (material_of key) key.bits) out.old out.new result }
{
    ttlv_numbers::write_number(out, tags::KEY_FORMAT_TYPE, Enumeration(RAW));
    let n = write_key_value(&mut out[16..], key);
    let at = 16 + n;
    let m = write_form(&mut out[at..], key.bits as u32);
    at + m
}

// The Key Block.
fn write_block(out: &mut [u8], key: Key) -> usize
    requires { 104 ≤ length out.old }
    ensures { Puts 104 (group key_block (key_block_items (material_of key) key.bits) nil) out.old out.new result }
{
    ttlv_around::write_around(out, tags::KEY_BLOCK, |room| write_block_items(room, key))
}

// The key itself.
pub fn write_key(out: &mut [u8], key: Key) -> usize
    requires { 112 ≤ length out.old }
    ensures { Puts 112 (key_items key) out.old out.new result }
{
    ttlv_around::write_around(out, tags::SYMMETRIC_KEY, |room| write_block(room, key))
}
