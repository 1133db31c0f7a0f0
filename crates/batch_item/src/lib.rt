// The batch items of a request: one of them, and a run of them.
// It knows TTLV by its items alone, and nothing of keys.
#![tactic(auto)]

ghost use Rattle.std.specs.Prelude.{◌≡◌, true, ◌≤◌, length, option_map};
ghost use Rattle.octets.specs.Maybe.{is_some};
ghost use Rattle.ttlv.specs.Tree.{is_run, tree_of};
ghost use Rattle.runs.specs.Runs.{bytes_read};
ghost use Rattle.batch_item.specs.Item.{id_most, item_in, items_in};
ghost use Rattle.batch_item.specs.Readers.{id_in, asked, id_of, parts_of, items_read};

use runs::Run;

// The most bytes of an ID.
const ID_MOST: usize = 16;

// The Unique Batch Item ID of an item, from the reader to the writer: its first `len` bytes; the
// others are zero. None was given where len is 0.
#[derive(Clone, Copy)]
pub struct ItemId {
    pub bytes: [u8; 16],
    pub len: usize,
}

// A batch item: the operation, the ID, and where the payload's own items start; they reach to the
// end of the item.
#[derive(Clone, Copy)]
pub struct ItemParts {
    pub operation: u32,
    pub id: ItemId,
    pub payload: usize,
}

// The ID at the front, no bytes where it is absent, and the run behind it: read once, and only where
// none was read is it asked whether a bad one stands there.
fn read_id<'a>(run: Run<'a>) -> Option<(&'a [u8], Run<'a>)>
    ensures { option_map bytes_read result ≡ id_in (tree_of run.entry.bytes.now) }
{
    let Some((id, rest)) = run.bytes(tags::UNIQUE_BATCH_ITEM_ID, ttlv_types::BYTE_STRING) else {
        if run.starts_with(tags::UNIQUE_BATCH_ITEM_ID) {
            return None;
        }
        let none = &run.bytes[..0];
        return Some((none, run));
    };
    if id.len() < 1 {
        return None;
    }
    if ID_MOST < id.len() {
        return None;
    }
    Some((id, rest))
}

// The items of a Batch Item: its operation, its ID and its payload's items.
fn find_item<'a>(run: Run<'a>) -> Option<(u32, &'a [u8], Run<'a>)>
    ensures { option_map asked result ≡ item_in (tree_of run.entry.bytes.now) }
{
    let (operation, rest) = run.word(tags::OPERATION, ttlv_types::ENUMERATION)?;
    let (id, rest) = read_id(rest)?;
    let (payload, rest) = rest.body(tags::REQUEST_PAYLOAD)?;
    rest.end()?;
    Some((operation, id, payload))
}

// How many batch items a run has, if it has nothing else.
pub fn count_items(run: Run<'_>) -> Option<usize>
    ensures { result ≡ items_read (items_in (tree_of run.entry.bytes.now)) }
{
    let mut rest = run;
    let mut count: usize = 0;
    while !rest.is_empty() {
        let (item, behind) = rest.body(tags::BATCH_ITEM)?;
        find_item(item)?;
        rest = behind;
        count += 1;
    }
    Some(count)
}

// An ID as the struct that carries it. `read_item` shows that it has at most 16 bytes.
fn take_id(v: &[u8]) -> ItemId
    requires { length v.now ≤ id_most }
    ensures { result ≡ id_of v.now }
{
    let mut bytes = [0u8; 16];
    octets::put_all(&mut bytes, 0, v);
    ItemId {
        bytes,
        len: v.len(),
    }
}

// The parts of a Batch Item. The engine's loop shows that it is one by the rules, from the frame
// that was taken.
pub fn read_item(body: &[u8]) -> ItemParts
    requires { (is_run body.now ≡ true) × (is_some (item_in (tree_of body.now)) ≡ true) }
    ensures { result ≡ parts_of body.now }
{
    let Some((operation, id, payload)) = find_item(Run { bytes: body }) else {
        return ItemParts {
            operation: 0,
            id: take_id(&body[..0]),
            payload: 0,
        };
    };
    ItemParts {
        operation,
        id: take_id(id),
        payload: body.len() - payload.bytes.len(),
    }
}
