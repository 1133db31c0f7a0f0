// The record at a place of the stored table, read whole or one link by itself.
// It knows nothing of what may happen to a key.
#![tactic(auto)]

ghost use Rattle.std.specs.Prelude.{◌≡◌, ◌+◌, ◌≤◌, length};
ghost use Rattle.octets.specs.Octets.{part};
ghost use Rattle.table.specs.Layout.{material_size, Place};
ghost use Rattle.table.specs.Records.{place_at};
ghost use Rattle.records.specs.Links.{link_at, LinkIn};

use table::{Layout, Record};

// A table's bytes and its place count stay two parameters, as in `table`.

// The material that stands from `at` on; its caller shows that it lies in the table.
fn material_at(t: &[u8], at: usize) -> [u8; 32]
    requires { at + material_size ≤ length t.now }
    ensures { result ≡ part t.now at material_size }
{
    let mut m = [0u8; 32];
    octets::put_all(&mut m, 0, &t[at..at + Layout::MATERIAL]);
    m
}

// The record at place i.
pub fn load(t: &[u8], n: usize, i: usize) -> Record
    requires { Place n t.now i }
    ensures { result ≡ place_at n t.now i }
{
    let line = Layout::line(i);
    let layout = Layout { places: n };
    let body = layout.body(i);
    let serial = octets::number_at(t, line + Layout::SERIAL_IN, 4) as u32;
    let state = octets::number_at(t, line + Layout::STATE_IN, 1) as u8;
    let unit = octets::number_at(t, line + Layout::UNIT_IN, 1) as u8;
    let bits = octets::number_at(t, line + Layout::BITS_IN, 2) as u16;
    let replaced = octets::number_at(t, line + Layout::REPLACED_IN, 4) as u32;
    let replacement = octets::number_at(t, line + Layout::REPLACEMENT_IN, 4) as u32;
    let total = octets::number_at(t, body + Layout::TOTAL_IN, 8);
    let count = octets::number_at(t, body + Layout::COUNT_IN, 8);
    let mask = octets::number_at(t, body + Layout::MASK_IN, 4) as u32;
    let material = material_at(t, body + Layout::MATERIAL_IN);
    let activation = octets::number_at(t, body + Layout::ACTIVATION_IN, 8);
    let deactivation = octets::number_at(t, body + Layout::DEACTIVATION_IN, 8);
    let name = table::name_at(t, n, i);
    Record {
        serial,
        state,
        unit,
        bits,
        replaced,
        replacement,
        total,
        count,
        mask,
        material,
        activation,
        deactivation,
        name,
    }
}

// The serial that stands `from` bytes into the line of place i, a link of its record, read by itself.
pub fn link_at(t: &[u8], n: usize, i: usize, from: usize) -> u32
    requires { LinkIn n t.now i from }
    ensures { result ≡ link_at t.now i from }
{
    let at = Layout::line(i);
    octets::number_at(t, at + from, 4) as u32
}
