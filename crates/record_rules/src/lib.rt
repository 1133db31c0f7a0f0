// The soundness rules of a record by itself, with no table around it.
// They ask nothing: a record of any numbers and any material gets an answer.
#![tactic(auto)]

ghost use Rattle.std.specs.Prelude.{◌≡◌, min};
ghost use Rattle.table.specs.Layout.{material_size};
ghost use Rattle.record_rules.specs.Rules.{limit_right};
ghost use Rattle.record_rules.specs.Checked.{values_right, zeros_from, serials_right, times_right};

use table::{Layout, Record};

// Rule 10: no limit and nothing counted, or a limit in range and no more left than it.
fn limit_right(p: Record) -> bool
    ensures { result ≡ limit_right p }
{
    if p.unit == 0 {
        return (p.total == 0) & (p.count == 0);
    }
    values::unit_ok(p.unit as u64) & values::total_ok(p.total) & (p.count <= p.total)
}

// Rules 7 to 10, 20 and 21: state, length in bits, mask, limit and name.
pub fn values_right(p: Record) -> bool
    ensures { result ≡ values_right p }
{
    (1 <= p.state)
        & (p.state <= 6)
        & values::bits_ok(p.bits as u64)
        & values::mask_ok(p.mask as u64)
        & limit_right(p)
        & names::shape_right(p.name)
        & names::text_right(p.name)
}

// Rules 6, 13 and 14: the serial and those that it is linked to, where `last` is the last one
// issued.
pub fn serials_right(p: Record, last: u32) -> bool
    ensures { result ≡ serials_right last p }
{
    let back = (p.replaced == 0) | (p.replaced < p.serial);
    let forth = (p.replacement == 0) | ((p.serial < p.replacement) & (p.replacement <= last));
    (p.serial <= last) & back & forth
}

// Where the zeros in a record's material start: behind its length, or at the front if the record is
// destroyed.
pub fn zeros_from(p: Record) -> usize
    ensures { result ≡ min (zeros_from p) material_size }
{
    if search::is_destroyed(p.state) {
        return 0;
    }
    octets::fewer((p.bits / 8) as usize, Layout::MATERIAL)
}

// Rules 16, 18 and 19: the dates, where `latest` is the latest clock.
pub fn times_right(p: Record, latest: u64) -> bool
    ensures { result ≡ times_right latest p }
{
    let set = values::not_negative(p.activation) & values::not_negative(p.deactivation);
    let order = values::in_order(p.activation, p.deactivation);
    set & order & ((p.state != 2) | (p.activation <= latest))
}
