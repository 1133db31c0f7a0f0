// The attributes that Create asks for, read from the items of Attributes, or that there are none by
// the rules. It knows TTLV by its items alone.
#![tactic(auto)]

ghost use Rattle.std.specs.Prelude.{◌≡◌, option_map};
ghost use Rattle.ttlv.specs.Tree.{tree_of};
ghost use Rattle.fields.specs.Fields.{optional};
ghost use Rattle.tags.specs.Tags.{usage_limits};
ghost use Rattle.runs.specs.Runs.{behind};
ghost use Rattle.attributes_read.specs.Attributes.{limit_in, limit_first, date_first, dated_in, limited_in, masked_in, attributes_in};

use names::Name;
use rules::Attributes;
use runs::Run;

// The one algorithm: AES.
const AES: u64 = 3;

// A usage limit. It is public for the definitions of the crates above.
#[derive(Clone, Copy)]
pub struct Limit {
    pub unit: u8,
    pub total: u64,
}

// The items of Usage Limits.
fn read_limit(run: Run<'_>) -> Option<Limit>
    ensures { result ≡ limit_in (tree_of run.entry.bytes.now) }
{
    let (total, rest) = run.number(tags::USAGE_LIMITS_TOTAL, ttlv_types::LONG_INTEGER)?;
    if !values::total_ok(total) {
        return None;
    }
    let (unit, rest) = rest.number(tags::USAGE_LIMITS_UNIT, ttlv_types::ENUMERATION)?;
    if !values::unit_ok(unit) {
        return None;
    }
    rest.end()?;
    Some(Limit {
        unit: unit as u8,
        total,
    })
}

// Usage Limits, if it is given, behind this mask: a limit is for a key that can apply protection.
fn read_limits<'a>(run: Run<'a>, mask: u32) -> Option<(Option<Limit>, Run<'a>)>
    ensures { option_map behind result ≡ optional usage_limits (limit_first mask) (tree_of run.entry.bytes.now) }
{
    if !run.starts_with(tags::USAGE_LIMITS) {
        return Some((None, run));
    }
    if !values::protects(mask as u64) {
        return None;
    }
    let (body, rest) = run.body(tags::USAGE_LIMITS)?;
    let limit = read_limit(body)?;
    Some((Some(limit), rest))
}

// The date with this tag, if it is given.
fn read_date<'a>(run: Run<'a>, tag: u32) -> Option<(Option<u64>, Run<'a>)>
    ensures { option_map behind result ≡ optional tag (date_first tag) (tree_of run.entry.bytes.now) }
{
    if !run.starts_with(tag) {
        return Some((None, run));
    }
    let (date, rest) = run.number(tag, ttlv_types::DATE_TIME)?;
    if !values::above_zero(date) {
        return None;
    }
    Some((Some(date), rest))
}

// The items behind Usage Limits: the dates, 0 where one is not given, then the name, and nothing
// behind it.
fn read_dated(run: Run<'_>) -> Option<(u64, u64, Name)>
    ensures { result ≡ dated_in (tree_of run.entry.bytes.now) }
{
    let (activation, rest) = read_date(run, tags::ACTIVATION_DATE)?;
    let (deactivation, rest) = read_date(rest, tags::DEACTIVATION_DATE)?;
    let activation = activation.unwrap_or(0);
    let deactivation = deactivation.unwrap_or(0);
    if !values::in_order(activation, deactivation) {
        return None;
    }
    let name = name_read::read_last_name(rest)?;
    Some((activation, deactivation, name))
}

// The items behind the mask, with the length and the mask that stand in front of them.
fn read_limited(run: Run<'_>, bits: u16, mask: u32) -> Option<Attributes>
    ensures { result ≡ limited_in bits mask (tree_of run.entry.bytes.now) }
{
    let (limit, rest) = read_limits(run, mask)?;
    let (activation, deactivation, name) = read_dated(rest)?;
    let limit = limit.unwrap_or(Limit { unit: 0, total: 0 });
    Some(Attributes {
        bits,
        mask,
        unit: limit.unit,
        total: limit.total,
        activation,
        deactivation,
        name,
    })
}

// The items from the mask on, with the length that stands in front of them.
fn read_masked(run: Run<'_>, bits: u16) -> Option<Attributes>
    ensures { result ≡ masked_in bits (tree_of run.entry.bytes.now) }
{
    let (mask, rest) = run.number(tags::CRYPTOGRAPHIC_USAGE_MASK, ttlv_types::INTEGER)?;
    if !values::mask_ok(mask) {
        return None;
    }
    read_limited(rest, bits, mask as u32)
}

// The items of Attributes.
pub fn read_attributes(run: Run<'_>) -> Option<Attributes>
    ensures { result ≡ attributes_in (tree_of run.entry.bytes.now) }
{
    let (algorithm, rest) = run.number(tags::CRYPTOGRAPHIC_ALGORITHM, ttlv_types::ENUMERATION)?;
    if algorithm != AES {
        return None;
    }
    let (bits, rest) = rest.number(tags::CRYPTOGRAPHIC_LENGTH, ttlv_types::INTEGER)?;
    if !values::bits_ok(bits) {
        return None;
    }
    read_masked(rest, bits as u16)
}
