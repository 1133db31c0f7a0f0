// How a record begins, by value: what Create makes, and the material of a new key, which a
// replacement has too. Nothing is asked.
#![tactic(auto)]

ghost use Rattle.std.specs.Prelude.{◌≡◌};
ghost use Rattle.new_records.specs.New.{material_from, new_record};

use rules::Attributes;
use table::Record;

// The material of a new key: the first bits/8 bytes of its part of the fresh strip, then zeros.
pub fn material_from(fresh: &[u8], bits: u16) -> [u8; 32]
    ensures { result ≡ material_from bits fresh.now }
{
    let end = octets::fewer((bits / 8) as usize, fresh.len());
    words::fill(&fresh[..end])
}

// The record that Create makes.
pub fn new_record(serial: u32, wanted: Attributes, fresh: &[u8]) -> Record
    ensures { result ≡ new_record serial wanted fresh.now }
{
    let material = material_from(fresh, wanted.bits);
    let name = wanted.name;
    Record {
        serial,
        state: rules::PRE_ACTIVE,
        unit: wanted.unit,
        bits: wanted.bits,
        replaced: 0,
        replacement: 0,
        total: wanted.total,
        count: wanted.total,
        mask: wanted.mask,
        material,
        activation: wanted.activation,
        deactivation: wanted.deactivation,
        name,
    }
}
