// A batch: its items one after the other, each carried out on the table and answered in the room
// that follows the answer before it. What a function here asks is shown by the functions above it,
// up to `engine::serve`, which asks nothing.
#![tactic(auto)]

ghost use Rattle.std.specs.Prelude.{◌≡◌, not, ◌&&◌, eqb};
ghost use Rattle.frame.specs.Frame.{continue};
ghost use Rattle.batch.specs.Runs.{asked_in, CarriesOne, CarriedIs, RunsOne, ItemIs, Runs, RanIs, ran_over};

use batch_item::ItemId;
use plans::Performed;
use runs::Run;
use table::Layout;

// A table's bytes and its place count stay two parameters, as in `table`.

// An option stays a number: `run_items` answers for any.

const CONTINUE: u32 = 1;

// What became of one item, and its operation and ID as given.
#[derive(Clone, Copy)]
pub struct Carried {
    pub performed: Performed,
    pub operation: u32,
    pub id: ItemId,
}

// What became of one item that was answered: whether it failed, the placeholder after it, and the
// bytes of its answer.
#[derive(Clone, Copy)]
struct ItemDone {
    failed: bool,
    holder: u32,
    used: usize,
}

// What became of a batch: how many items were answered, and the bytes of their answers.
#[derive(Clone, Copy)]
pub struct BatchDone {
    pub count: u32,
    pub used: usize,
}

// One item read and carried out on the table. Nothing is answered.
pub fn carry_item(body: &[u8], table: &mut [u8], n: usize, fresh: &[u8], holder: u32) -> Carried
    requires { CarriesOne n body.now table.old }
    ensures { CarriedIs n (asked_in body.now) table.old fresh.now holder result table.new }
{
    let parts = batch_item::read_item(body);
    let start = parts.payload;
    let operation = parts.operation;
    let items = Run {
        bytes: &body[start..],
    };
    let command = payload::read_command(operation, items);
    let performed = act::perform(table, n, holder, command, fresh);
    let id = parts.id;
    Carried {
        performed,
        operation,
        id,
    }
}

// One item carried out on the table, and answered in the room that is lent. `run_items` shows what
// it asks.
fn one_item(
    body: &[u8],
    table: &mut [u8],
    n: usize,
    fresh: &[u8],
    holder: u32,
    out: &mut [u8],
) -> ItemDone
    requires { RunsOne n body.now table.old out.old }
    ensures { ItemIs n (asked_in body.now) table.old fresh.now holder out.old result table.new out.new }
{
    let carried = carry_item(body, table, n, fresh, holder);
    let performed = carried.performed;
    let outcome = performed.outcome;
    let failed = plans::is_failed(outcome);
    let id = carried.id;
    let used = answer_write::write_answer(out, carried.operation, id, outcome);
    ItemDone {
        failed,
        holder: performed.holder,
        used,
    }
}

// The batch: the items one after the other, each answered in the room that follows the one before
// it; but for Continue nothing after the first failed one.
pub fn run_items(
    items: &[u8],
    table: &mut [u8],
    n: usize,
    fresh: &[u8],
    option: u32,
    out: &mut [u8],
) -> BatchDone
    requires { Runs n items.now table.old fresh.now out.old }
    ensures { RanIs (ran_over n items.now fresh.now option table.old) out.old result table.new out.new }
{
    let mut left = items;
    let mut i: usize = 0;
    let mut holder: u32 = 0;
    let mut at: usize = 0;
    // i is counted by hand: the loop ends with the items, and i picks the part of the strip
    loop {
        let Some(next) = fields::body_field(left, tags::BATCH_ITEM) else {
            let count = i as u32;
            return BatchDone { count, used: at };
        };
        let from = Layout::MATERIAL * i;
        let to = from + Layout::MATERIAL;
        let done = one_item(
            &left[8..next],
            table,
            n,
            &fresh[from..to],
            holder,
            &mut out[at..],
        );
        at += done.used;
        i += 1;
        if ends(option, done.failed) {
            let count = i as u32;
            return BatchDone { count, used: at };
        }
        holder = done.holder;
        left = &left[next..];
    }
}

// Whether nothing after an item is carried out: it failed, and the option is not Continue.
fn ends(option: u32, failed: bool) -> bool
    ensures { result ≡ (failed && not (eqb option continue)) }
{
    if !failed {
        return false;
    }
    option != CONTINUE
}
