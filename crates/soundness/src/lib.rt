// The soundness check of a stored table. Its rules of a record by itself are those of record_rules,
// those that two places break together of twin_rules.
// It writes nothing, and takes a table of any size and any content.
#![tactic(auto)]

ghost use Rattle.std.specs.Prelude.{◌≡◌, eqb};
ghost use Rattle.table.specs.Layout.{size_of, Place};
ghost use Rattle.search.specs.Search.{find};
ghost use Rattle.record_rules.specs.Checked.{material_right};
ghost use Rattle.soundness.specs.Sound.{free_right, zeros_right, if_stands, sound};
ghost use Rattle.soundness.specs.Checked.{whole_right, standing_right, place_right, has_link, LinkAsked, RecordAt, Reached, ReachedRecord};

use table::{Layout, Record};

// A table's bytes and its place count stay two parameters, as in `table`.

// ---- the rules of the whole table

// Whether so many bytes make a table of n places.
fn size_right(len: usize, n: usize) -> bool
    ensures { result ≡ eqb len (size_of n) }
{
    if len < Layout::LEAD {
        return false;
    }
    if (len - Layout::LEAD) / (Layout::LINE + Layout::BODY) < n {
        return false;
    }
    let layout = Layout { places: n };
    len == layout.size()
}

// Rules 1, 2 and 17.
fn whole_right(t: &[u8], n: usize) -> bool
    ensures { result ≡ whole_right n t.now }
{
    if !size_right(t.len(), n) {
        return false;
    }
    let said = table::places_said(t);
    let latest = table::latest_clock(t);
    (said as usize == n) & values::not_negative(latest)
}

// ---- the rules at a place: the check has tested the table's size and counts its places

// Rule 3, of a free place.
fn free_right(t: &[u8], n: usize, i: usize) -> bool
    requires { Place n t.now i }
    ensures { result ≡ free_right n t.now i }
{
    let layout = Layout { places: n };
    let line = Layout::line(i);
    let body = layout.body(i);
    octets::all_zero(&t[line..line + Layout::LINE])
        & octets::all_zero(&t[body..body + Layout::BODY])
}

// Rule 4: the four zeros behind the mask.
fn zeros_right(t: &[u8], n: usize, i: usize) -> bool
    requires { Place n t.now i }
    ensures { result ≡ zeros_right n t.now i }
{
    let layout = Layout { places: n };
    let zeros = layout.body(i) + Layout::ZEROS_IN;
    octets::all_zero(&t[zeros..zeros + 4])
}

// Rules 11 and 12, of the record p that stands at place i: its material is looked at where it
// stands.
fn material_right(t: &[u8], n: usize, i: usize, p: Record) -> bool
    requires { RecordAt n t.now i p }
    ensures { result ≡ material_right p }
{
    let layout = Layout { places: n };
    let start = layout.body(i) + Layout::MATERIAL_IN;
    let from = start + record_rules::zeros_from(p);
    let end = start + Layout::MATERIAL;
    octets::all_zero(&t[from..end])
}

// A half of rule 15: the record with the serial `other`, if it stands, has this serial as the link
// that stands `from` bytes into its line.
fn end_right(t: &[u8], n: usize, serial: u32, other: u32, from: usize) -> bool
    requires { LinkAsked n t.now from }
    ensures { result ≡ if_stands (has_link t.now serial from) (find n t.now other) }
{
    match search::find(t, n, other) {
        Some(j) => { records::link_at(t, n, j, from) == serial }
        None => true,
    }
}

// Rules 4 to 16 and 18 to 22, of the record p that stands at place i, where `last` is the last
// serial issued and `latest` the latest clock: the check has read them, and `top` from the serials
// of the lower places.
fn standing_right(t: &[u8], n: usize, i: usize, last: u32, latest: u64, top: u32, p: Record) -> bool
    requires { ReachedRecord n t.now i last latest top p }
    ensures { result ≡ standing_right n t.now i p }
{
    let alone = zeros_right(t, n, i)
        & record_rules::values_right(p)
        & material_right(t, n, i, p)
        & record_rules::serials_right(p, last)
        & record_rules::times_right(p, latest);
    let back = end_right(t, n, p.serial, p.replaced, Layout::REPLACEMENT_IN);
    let forth = end_right(t, n, p.serial, p.replacement, Layout::REPLACED_IN);
    let serial = twin_rules::own_place(t, n, i, top, p.serial);
    alone & serial & (back & forth) & twin_rules::own_name(t, n, i, p.name)
}

// Rules 3 to 16 and 18 to 22 at place i.
fn place_right(t: &[u8], n: usize, i: usize, last: u32, latest: u64, top: u32) -> bool
    requires { Reached n t.now i last latest top }
    ensures { result ≡ place_right n t.now i }
{
    if table::serial_at(t, i) == 0 {
        return free_right(t, n, i);
    }
    let p = records::load(t, n, i);
    standing_right(t, n, i, last, latest, top, p)
}

// ---- the check

// Whether t is a sound table of n places. Any bytes and any number get an answer.
pub fn is_sound(t: &[u8], n: usize) -> bool
    ensures { result ≡ sound n t.now }
{
    if !whole_right(t, n) {
        return false;
    }
    let last = table::last_serial(t);
    let latest = table::latest_clock(t);
    let mut top: u32 = 0;
    for i in 0..n {
        if !place_right(t, n, i, last, latest, top) {
            return false;
        }
        top = top.max(table::serial_at(t, i));
    }
    true
}
