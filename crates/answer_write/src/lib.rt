// The writer of answers: batch items in lent room. What a function asks is shown by its callers
// here; what `write_answer` asks, by the writer of the whole response.
#![tactic(auto)]

ghost use Rattle.std.specs.Prelude.{◌+◌, ◌-◌, ◌≤◌, ℕ, List, length, take, drop};
ghost use Rattle.std.specs.Fn.{FnOnceTakesAtMut, FnOnceReturnsAtMut};
ghost use Rattle.ttlv_types.specs.Types.{enumeration};
ghost use Rattle.ttlv.specs.Items.{Items, nil, group};
ghost use Rattle.tags.specs.Tags.{batch_item, attributes, object_type, unique_identifier};
ghost use Rattle.payload.specs.Payload.{symmetric_key};
ghost use Rattle.batch_item.specs.Item.{id_most};
ghost use Rattle.plans.specs.declared.Outcome.TheVariants.{Failed, Undone};
ghost use Rattle.answer.specs.Respond.{word, named, attribute_items, key_items, located_items, succeeded, outcome_items, id_items, answer_items};
ghost use Rattle.answer.specs.Front.{longest_item};
ghost use Rattle.named_write.specs.Puts.{Puts};
ghost use Rattle.answer_write.specs.Answers.{answer_of};

use batch_item::ItemId;
use plans::{Key, Outcome, Shown};
use rules::Reason;
use ttlv_numbers::Enumeration;

// An operation stays a number: `write_answer` echoes any.

// Values of Enumerations.
const SYMMETRIC_KEY: u32 = 2;

const SUCCESS: u32 = 0;

const OPERATION_FAILED: u32 = 1;

const OPERATION_UNDONE: u32 = 3;

// ---- payloads

// The payload of Create.
fn write_created(out: &mut [u8], serial: u32) -> usize
    requires { 32 ≤ length out.old }
    ensures { Puts 32 (word object_type enumeration symmetric_key (named unique_identifier serial nil)) out.old out.new result }
{
    ttlv_numbers::write_number(out, tags::OBJECT_TYPE, Enumeration(SYMMETRIC_KEY));
    let n = named_write::write_named(&mut out[16..], tags::UNIQUE_IDENTIFIER, serial);
    16 + n
}

// The payload of Get Attributes.
fn write_showed(out: &mut [u8], shown: Shown) -> usize
    requires { 320 ≤ length out.old }
    ensures { Puts 320 (named unique_identifier shown.serial (group attributes (attribute_items shown) nil)) out.old out.new result }
{
    let n = named_write::write_named(out, tags::UNIQUE_IDENTIFIER, shown.serial);
    let m = attributes_write::write_attributes(&mut out[n..], shown);
    n + m
}

// The payload of Get: what Create answers, and the key behind it.
fn write_got(out: &mut [u8], key: Key) -> usize
    requires { 144 ≤ length out.old }
    ensures { Puts 144 (word object_type enumeration symmetric_key (named unique_identifier key.serial (key_items key))) out.old out.new result }
{
    let n = write_created(out, key.serial);
    let m = key_write::write_key(&mut out[n..], key);
    n + m
}

// The payload of Locate: the identifier of what was found; nothing where nothing was.
fn write_located(out: &mut [u8], serial: u32) -> usize
    requires { 16 ≤ length out.old }
    ensures { Puts 16 (located_items serial) out.old out.new result }
{
    if serial == 0 {
        return 0;
    }
    named_write::write_named(out, tags::UNIQUE_IDENTIFIER, serial)
}

// ---- outcomes

// A success: its status, and behind it, in the head of a payload, what the payload writes. Each
// caller shows the room, and that the payload keeps to it.
fn write_success<F: FnOnce(&mut [u8]) -> usize>(out: &mut [u8], payload: F) -> usize
    requires room { 24 ≤ length out.old }
    requires callable { FnOnceTakesAtMut F.FnOnce payload (drop 24 out.old) }
    requires within { (n : ℕ) (left : List ℕ) → FnOnceReturnsAtMut F.FnOnce payload (drop 24 out.old) n left → n ≤ length out.old - 24 }
    ensures { (most : ℕ) (t : Items) → ((n : ℕ) (left : List ℕ) → FnOnceReturnsAtMut F.FnOnce payload (drop 24 out.old) n left → Puts most t (drop 24 out.old) left n) → most ≤ 320 → Puts (24 + most) (succeeded t) out.old out.new result }
{
    ttlv_numbers::write_number(out, tags::RESULT_STATUS, Enumeration(SUCCESS));
    let n = ttlv_around::write_around(&mut out[16..], tags::RESPONSE_PAYLOAD, payload);
    16 + n
}

fn write_failure(out: &mut [u8], reason: Reason) -> usize
    requires { 32 ≤ length out.old }
    ensures { Puts 32 (outcome_items (Failed reason)) out.old out.new result }
{
    ttlv_numbers::write_number(out, tags::RESULT_STATUS, Enumeration(OPERATION_FAILED));
    ttlv_numbers::write_number(
        &mut out[16..],
        tags::RESULT_REASON,
        Enumeration(rules::reason_number(reason)),
    );
    32
}

// A success that was undone: its status and nothing behind it.
fn write_undone(out: &mut [u8]) -> usize
    requires { 16 ≤ length out.old }
    ensures { Puts 16 (outcome_items Undone) out.old out.new result }
{
    ttlv_numbers::write_number(out, tags::RESULT_STATUS, Enumeration(OPERATION_UNDONE));
    16
}

// What became of an item: a reason, a payload, or neither.
fn write_outcome(out: &mut [u8], outcome: Outcome) -> usize
    requires { 344 ≤ length out.old }
    ensures { Puts 344 (outcome_items outcome) out.old out.new result }
{
    match outcome {
        Outcome::Failed { reason } => write_failure(out, reason),
        Outcome::Created { serial } => write_success(out, |room| write_created(room, serial)),
        Outcome::Done { serial } => write_success(out, |room| {
            named_write::write_named(room, tags::UNIQUE_IDENTIFIER, serial)
        }),
        Outcome::Showed { shown } => write_success(out, |room| write_showed(room, shown)),
        Outcome::Got { key } => write_success(out, |room| write_got(room, key)),
        Outcome::Located { serial } => write_success(out, |room| write_located(room, serial)),
        Outcome::Undone => write_undone(out),
    }
}

// ---- batch items

// The Unique Batch Item ID; nothing where none was given.
fn write_id(out: &mut [u8], id: ItemId) -> usize
    requires { (24 ≤ length out.old) × (id.len ≤ id_most) }
    ensures { Puts 24 (id_items (take id.len id.bytes) nil) out.old out.new result }
{
    let bytes = id.bytes;
    let n = id.len;
    if n == 0 {
        return 0;
    }
    ttlv_write::write_bytes(out, tags::UNIQUE_BATCH_ITEM_ID, &bytes[..n])
}

fn write_answer_items(out: &mut [u8], operation: u32, id: ItemId, outcome: Outcome) -> usize
    requires { (384 ≤ length out.old) × (id.len ≤ id_most) }
    ensures { Puts 384 (answer_items (answer_of operation id outcome)) out.old out.new result }
{
    ttlv_numbers::write_number(out, tags::OPERATION, Enumeration(operation));
    let n = write_id(&mut out[16..], id);
    let at = 16 + n;
    let m = write_outcome(&mut out[at..], outcome);
    at + m
}

// The batch item that answers one item.
pub fn write_answer(out: &mut [u8], operation: u32, id: ItemId, outcome: Outcome) -> usize
    requires { (longest_item ≤ length out.old) × (id.len ≤ id_most) }
    ensures { Puts longest_item (group batch_item (answer_items (answer_of operation id outcome)) nil) out.old out.new result }
{
    ttlv_around::write_around(
        out,
        tags::BATCH_ITEM,
        |room| write_answer_items(room, operation, id, outcome),
    )
}
