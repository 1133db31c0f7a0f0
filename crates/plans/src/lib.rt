// What became of a batch item, and what a failure answers. It touches no table and no output.
#![tactic(auto)]

ghost use Rattle.std.specs.Prelude.{◌≡◌};
ghost use Rattle.plans.specs.Plans.{failed, is_failed};

use names::Name;
use rules::Reason;
use words::Words;

// What Get Attributes shows of a record. A date of 0 is not set; unit 0 is no usage limit; a link
// serial 0 is no link.
#[derive(Clone, Copy)]
pub struct Shown {
    pub serial: u32,
    pub bits: u16,
    pub mask: u32,
    pub state: u8,
    pub activation: u64,
    pub deactivation: u64,
    pub unit: u8,
    pub total: u64,
    pub count: u64,
    pub replaced: u32,
    pub replacement: u32,
    pub name: Name,
}

// What Get hands out of a record: its material, as four numbers, and its length.
#[derive(Clone, Copy)]
pub struct Key {
    pub serial: u32,
    pub bits: u16,
    pub material: Words,
}

// What became of an item.
#[derive(Clone, Copy)]
pub enum Outcome {
    Failed { reason: Reason },
    // Create: a new object of this serial
    Created { serial: u32 },
    // the operations that answer an identifier alone
    Done { serial: u32 },
    // Get Attributes
    Showed { shown: Shown },
    // Get
    Got { key: Key },
    // Locate: the record with the name that was asked for, 0 where there is none
    Located { serial: u32 },
    // a success that was undone, because a later item of its batch failed; no operation leaves it
    Undone,
}

// What became of an item, and the placeholder after it, 0 where it is empty.
#[derive(Clone, Copy)]
pub struct Performed {
    pub outcome: Outcome,
    pub holder: u32,
}

// Whether an item failed.
#[tactic(auto, using(crate::proofs::Plans::not_failed), unfolding(crate::specs::Plans::is_failed))]
pub fn is_failed(outcome: Outcome) -> bool
    ensures { result ≡ is_failed outcome }
{
    matches!(outcome, Outcome::Failed { .. })
}

// A failure empties the placeholder.
pub fn fail(reason: Reason) -> Performed
    ensures { result ≡ failed reason }
{
    Performed {
        outcome: Outcome::Failed { reason },
        holder: 0,
    }
}
