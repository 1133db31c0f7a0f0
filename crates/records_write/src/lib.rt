// The record at a place of the stored table, stored.
// It knows nothing of what may happen to a key.
#![tactic(auto)]

ghost use Rattle.std.specs.Prelude.{◌≡◌, ◌+◌, ◌≤◌, length};
ghost use Rattle.std.proofs.lemmas.List.Edits.{sets};
ghost use Rattle.names.specs.Names.{name_size, name_field};
ghost use Rattle.table.specs.Layout.{line_size, name_in, Place};
ghost use Rattle.table.specs.Records.{line, body, with_place};

use names::Name;
use table::{Layout, Record};

// A table's bytes and its place count stay two parameters, as in `table`.

// State and unit stay the bytes that a table stores, which may be any.

// Writes a line from `at` on; its caller shows that it lies in the table.
fn put_line(
    t: &mut [u8],
    at: usize,
    serial: u32,
    state: u8,
    unit: u8,
    bits: u16,
    replaced: u32,
    replacement: u32,
)
    requires { at + line_size ≤ length t.old }
    ensures { t.new ≡ sets t.old at (line serial state unit bits replaced replacement) }
{
    octets::put(t, at + Layout::SERIAL_IN, 4, serial as u64);
    octets::put(t, at + Layout::STATE_IN, 1, state as u64);
    octets::put(t, at + Layout::UNIT_IN, 1, unit as u64);
    octets::put(t, at + Layout::BITS_IN, 2, bits as u64);
    octets::put(t, at + Layout::REPLACED_IN, 4, replaced as u64);
    octets::put(t, at + Layout::REPLACEMENT_IN, 4, replacement as u64);
}

// Writes a body up to its name from `at` on; its caller shows that it lies in the table.
fn put_body(
    t: &mut [u8],
    at: usize,
    total: u64,
    count: u64,
    mask: u32,
    material: [u8; 32],
    activation: u64,
    deactivation: u64,
)
    requires { at + name_in ≤ length t.old }
    ensures { t.new ≡ sets t.old at (body total count mask material activation deactivation) }
{
    octets::put(t, at + Layout::TOTAL_IN, 8, total);
    octets::put(t, at + Layout::COUNT_IN, 8, count);
    octets::put(t, at + Layout::MASK_IN, 4, mask as u64);
    octets::put(t, at + Layout::ZEROS_IN, 4, 0);
    octets::put_all(t, at + Layout::MATERIAL_IN, &material);
    octets::put(t, at + Layout::ACTIVATION_IN, 8, activation);
    octets::put(t, at + Layout::DEACTIVATION_IN, 8, deactivation);
}

// Writes a name from `at` on; its caller shows that it lies in the table.
fn put_name(t: &mut [u8], at: usize, name: Name)
    requires { at + name_size ≤ length t.old }
    ensures { t.new ≡ sets t.old at (name_field name) }
{
    let w = name.words;
    octets::put(t, at, 1, name.len as u64);
    octets::put(t, at + 1, 7, name.zeros);
    words::put_words(t, at + 8, w);
}

// Stores a record at place i.
pub fn store(t: &mut [u8], n: usize, i: usize, r: Record)
    requires { Place n t.old i }
    ensures { t.new ≡ with_place n t.old i r }
{
    let line_at = Layout::line(i);
    let layout = Layout { places: n };
    let body_at = layout.body(i);
    let material = r.material;
    let name = r.name;
    put_line(
        t,
        line_at,
        r.serial,
        r.state,
        r.unit,
        r.bits,
        r.replaced,
        r.replacement,
    );
    put_body(
        t,
        body_at,
        r.total,
        r.count,
        r.mask,
        material,
        r.activation,
        r.deactivation,
    );
    put_name(t, body_at + Layout::NAME_IN, name);
}
