// The writer of a key's attributes in lent room.
// What a function asks is shown by its callers: here, or for `write_attributes` in the writer of
// answers.
#![tactic(auto)]

ghost use Rattle.std.specs.Prelude.{◌≤◌, ◌≡◌, true, length};
ghost use Rattle.ttlv_types.specs.Types.{integer, long_integer, enumeration};
ghost use Rattle.ttlv.specs.Items.{nil, group};
ghost use Rattle.tags.specs.Tags.{tag_ok, activation_date, attributes, cryptographic_algorithm, cryptographic_length, cryptographic_usage_mask, deactivation_date, usage_limits_count, usage_limits_total, usage_limits_unit, link_type, linked_object_identifier, state_tag};
ghost use Rattle.attributes_read.specs.Attributes.{aes};
ghost use Rattle.answer.specs.Respond.{word, long, named, date_items, limit_items, link_items, name_items, attribute_items, replaced_object_link, replacement_object_link};
ghost use Rattle.named_write.specs.Puts.{Puts};

use names::Name;
use plans::Shown;
use ttlv_numbers::{DateTime, Enumeration, Integer, LongInteger};

// State and unit stay the numbers that a record has, which may be any; the two kinds of link are
// each used once.

// Values of Enumerations.
const AES: u32 = 3;

const REPLACED_OBJECT_LINK: u32 = 0x107;

const REPLACEMENT_OBJECT_LINK: u32 = 0x106;

// The body of a link.
fn write_link_body(out: &mut [u8], kind: u32, serial: u32) -> usize
    requires { 32 ≤ length out.old }
    ensures { Puts 32 (word link_type enumeration kind (named linked_object_identifier serial nil)) out.old out.new result }
{
    ttlv_numbers::write_number(out, tags::LINK_TYPE, Enumeration(kind));
    let n = named_write::write_named(&mut out[16..], tags::LINKED_OBJECT_IDENTIFIER, serial);
    16 + n
}

// A link; nothing where the serial is 0.
fn write_link(out: &mut [u8], kind: u32, serial: u32) -> usize
    requires { 40 ≤ length out.old }
    ensures { Puts 40 (link_items kind serial nil) out.old out.new result }
{
    if serial == 0 {
        return 0;
    }
    ttlv_around::write_around(out, tags::LINK, |room| write_link_body(room, kind, serial))
}

// The body of a usage limit.
fn write_limit_body(out: &mut [u8], unit: u32, total: u64, count: u64) -> usize
    requires { 48 ≤ length out.old }
    ensures { Puts 48 (long usage_limits_total long_integer total (long usage_limits_count long_integer count (word usage_limits_unit enumeration unit nil))) out.old out.new result }
{
    ttlv_numbers::write_number(out, tags::USAGE_LIMITS_TOTAL, LongInteger(total));
    ttlv_numbers::write_number(&mut out[16..], tags::USAGE_LIMITS_COUNT, LongInteger(count));
    ttlv_numbers::write_number(&mut out[32..], tags::USAGE_LIMITS_UNIT, Enumeration(unit));
    48
}

// The attributes that every key has.
fn write_always(out: &mut [u8], bits: u32, mask: u32, state: u32) -> usize
    requires { 64 ≤ length out.old }
    ensures { Puts 64 (word cryptographic_algorithm enumeration aes (word cryptographic_length integer bits (word cryptographic_usage_mask integer mask (word state_tag enumeration state nil)))) out.old out.new result }
{
    ttlv_numbers::write_number(out, tags::CRYPTOGRAPHIC_ALGORITHM, Enumeration(AES));
    ttlv_numbers::write_number(&mut out[16..], tags::CRYPTOGRAPHIC_LENGTH, Integer(bits));
    ttlv_numbers::write_number(
        &mut out[32..],
        tags::CRYPTOGRAPHIC_USAGE_MASK,
        Integer(mask),
    );
    ttlv_numbers::write_number(&mut out[48..], tags::STATE, Enumeration(state));
    64
}

// A date under a tag; nothing where it is 0, not set.
fn write_date(out: &mut [u8], tag: u32, date: u64) -> usize
    requires { (16 ≤ length out.old) × (tag_ok tag ≡ true) }
    ensures { Puts 16 (date_items tag date nil) out.old out.new result }
{
    if date == 0 {
        return 0;
    }
    ttlv_numbers::write_number(out, tag, DateTime(date));
    16
}

// The dates that are set: the activation date, then the deactivation date.
fn write_dates(out: &mut [u8], activation: u64, deactivation: u64) -> usize
    requires { 32 ≤ length out.old }
    ensures { Puts 32 (date_items activation_date activation (date_items deactivation_date deactivation nil)) out.old out.new result }
{
    let n = write_date(out, tags::ACTIVATION_DATE, activation);
    let m = write_date(&mut out[n..], tags::DEACTIVATION_DATE, deactivation);
    n + m
}

// A usage limit; nothing where the unit is 0.
fn write_limits(out: &mut [u8], shown: Shown) -> usize
    requires { 56 ≤ length out.old }
    ensures { Puts 56 (limit_items shown nil) out.old out.new result }
{
    if shown.unit == 0 {
        return 0;
    }
    ttlv_around::write_around(
        out,
        tags::USAGE_LIMITS,
        |room| write_limit_body(room, shown.unit as u32, shown.total, shown.count),
    )
}

// The links: to what this key replaced, then to what replaces it.
fn write_links(out: &mut [u8], replaced: u32, replacement: u32) -> usize
    requires { 80 ≤ length out.old }
    ensures { Puts 80 (link_items replaced_object_link replaced (link_items replacement_object_link replacement nil)) out.old out.new result }
{
    let n = write_link(out, REPLACED_OBJECT_LINK, replaced);
    let m = write_link(&mut out[n..], REPLACEMENT_OBJECT_LINK, replacement);
    n + m
}

// What stands last: the links, then the name.
fn write_last(out: &mut [u8], replaced: u32, replacement: u32, name: Name) -> usize
    requires { 144 ≤ length out.old }
    ensures { Puts 144 (link_items replaced_object_link replaced (link_items replacement_object_link replacement (name_items name nil))) out.old out.new result }
{
    let n = write_links(out, replaced, replacement);
    let m = name_write::write_name(&mut out[n..], name);
    n + m
}

// All attributes of a key.
fn write_attribute_items(out: &mut [u8], shown: Shown) -> usize
    requires { 296 ≤ length out.old }
    ensures { Puts 296 (attribute_items shown) out.old out.new result }
{
    let n = write_always(out, shown.bits as u32, shown.mask, shown.state as u32);
    let m = write_dates(&mut out[n..], shown.activation, shown.deactivation);
    let at = n + m;
    let k = write_limits(&mut out[at..], shown);
    let end = at + k;
    let name = shown.name;
    let l = write_last(&mut out[end..], shown.replaced, shown.replacement, name);
    end + l
}

// The structure Attributes of a key.
pub fn write_attributes(out: &mut [u8], shown: Shown) -> usize
    requires { 304 ≤ length out.old }
    ensures { Puts 304 (group attributes (attribute_items shown) nil) out.old out.new result }
{
    ttlv_around::write_around(
        out,
        tags::ATTRIBUTES,
        |room| write_attribute_items(room, shown),
    )
}
