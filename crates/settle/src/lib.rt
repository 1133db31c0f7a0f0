// A batch under its option. Under Undo it is tried on the second buffer first, and only where every
// item succeeds is it run on the table: nothing that failed ever touches the table, and the answers
// of a batch that failed are written from the request alone.
#![tactic(auto)]

ghost use Rattle.std.specs.Prelude.{◌≡◌};
ghost use Rattle.frame.specs.Frame.{undo};
ghost use Rattle.batch.specs.Runs.{Carries, ran_over};
ghost use Rattle.settle.specs.Trials.{failure_of, TriedIs, Settles, SettledIs};

use batch::BatchDone;
use plans::Outcome;
use rules::Reason;
use table::Layout;

// A table's bytes and its place count stay two parameters, as in `table`.

// An option stays a number: `run_batch` answers for any.

const UNDO: u32 = 3;

// Why an item failed, if it did.
fn failure_of(outcome: Outcome) -> Option<Reason>
    ensures { result ≡ failure_of outcome }
{
    match outcome {
        Outcome::Failed { reason } => Some(reason),
        _ => None,
    }
}

// The batch carried out on a table up to its first failed item: which that is, and why, if one
// fails. Nothing is answered. `run_batch` shows what it asks.
fn try_items(items: &[u8], table: &mut [u8], n: usize, fresh: &[u8]) -> Option<(usize, Reason)>
    requires { Carries n items.now table.old fresh.now }
    ensures { TriedIs (ran_over n items.now fresh.now undo table.old) result table.new }
{
    let mut left = items;
    let mut i: usize = 0;
    let mut holder: u32 = 0;
    // i is counted by hand: the loop ends with the items, and i picks the part of the strip
    loop {
        let Some(next) = fields::body_field(left, tags::BATCH_ITEM) else {
            return None;
        };
        let from = Layout::MATERIAL * i;
        let to = from + Layout::MATERIAL;
        let carried = batch::carry_item(&left[8..next], table, n, &fresh[from..to], holder);
        let performed = carried.performed;
        let outcome = performed.outcome;
        if let Some(reason) = failure_of(outcome) {
            return Some((i, reason));
        }
        i += 1;
        holder = performed.holder;
        left = &left[next..];
    }
}

// The batch under its option. `engine::answer_all` shows what it asks: the frame was read, and the
// sizes are right. Under Undo the second buffer holds the table as it was; under every other option
// it is not touched.
pub fn run_batch(
    items: &[u8],
    table: &mut [u8],
    n: usize,
    fresh: &[u8],
    option: u32,
    out: &mut [u8],
    undo: &mut [u8],
) -> BatchDone
    requires { Settles n items.now table.old fresh.now out.old undo.old }
    ensures { SettledIs option (ran_over n items.now fresh.now option table.old) table.old out.old undo.old result table.new out.new undo.new }
{
    if option != UNDO {
        return batch::run_items(items, table, n, fresh, option, out);
    }
    octets::put_all(undo, 0, table);
    let failure = try_items(items, undo, n, fresh);
    octets::put_all(undo, 0, table);
    match failure {
        None => batch::run_items(items, table, n, fresh, option, out),
        Some((index, reason)) => undone_answers::tell_undone(items, index, reason, out),
    }
}
