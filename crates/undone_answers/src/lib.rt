// The answers of a batch that failed under Undo, written from the request alone: the item that
// failed carries its reason, and those in front of it were undone. No table is looked at.
#![tactic(auto)]

ghost use Rattle.std.specs.Prelude.{◌≡◌};
ghost use Rattle.ttlv.specs.Items.{nil, group};
ghost use Rattle.tags.specs.Tags.{batch_item};
ghost use Rattle.answer.specs.Respond.{answer_items};
ghost use Rattle.answer.specs.Front.{longest_item};
ghost use Rattle.named_write.specs.Puts.{Puts};
ghost use Rattle.batch.specs.Batch.{answer_with};
ghost use Rattle.batch.specs.Runs.{asked_in, AnswersAre};
ghost use Rattle.undone_answers.specs.Undone.{said_of, undone_over, TellsOne, Tells};

use batch::BatchDone;
use plans::Outcome;
use rules::Reason;

// What is said of an item of a batch that failed.
fn said_of(failed: bool, reason: Reason) -> Outcome
    ensures { result ≡ said_of failed reason }
{
    if failed {
        return Outcome::Failed { reason };
    }
    Outcome::Undone
}

// The answer to one item, from the request alone: its operation and ID as given, and this outcome.
fn tell_item(body: &[u8], outcome: Outcome, out: &mut [u8]) -> usize
    requires { TellsOne body.now out.old }
    ensures { Puts longest_item (group batch_item (answer_items (answer_with (asked_in body.now) outcome)) nil) out.old out.new result }
{
    let parts = batch_item::read_item(body);
    let id = parts.id;
    answer_write::write_answer(out, parts.operation, id, outcome)
}

// The answers to a batch of which this item failed, up to and including it: the others were undone.
// `settle::run_batch` shows what it asks.
pub fn tell_undone(items: &[u8], index: usize, reason: Reason, out: &mut [u8]) -> BatchDone
    requires { Tells items.now out.old }
    ensures { AnswersAre (undone_over index reason items.now) out.old result out.new }
{
    let mut left = items;
    let mut i: usize = 0;
    let mut at: usize = 0;
    // i is counted by hand: the loop ends with the items, and answers how many there were
    loop {
        let Some(next) = fields::body_field(left, tags::BATCH_ITEM) else {
            let count = i as u32;
            return BatchDone { count, used: at };
        };
        let failed = i == index;
        let said = said_of(failed, reason);
        let used = tell_item(&left[8..next], said, &mut out[at..]);
        at += used;
        i += 1;
        if failed {
            let count = i as u32;
            return BatchDone { count, used: at };
        }
        left = &left[next..];
    }
}
