// One batch item carried out on the table: which record it is about, and what is done. It touches no
// output.
#![tactic(auto)]

ghost use Rattle.std.specs.Prelude.{◌≡◌};
ghost use Rattle.table.specs.Layout.{Table};
ghost use Rattle.plans.specs.Plans.{carried_out, in_places, leaves};
ghost use Rattle.act.specs.Act.{sought, performing};
ghost use Rattle.act.specs.Perform.{about_plan};

use deeds::Deed;
use payload::Command;
use plans::Performed;
use rules::Reason;
use target_read::Target;

// A table's bytes and its place count stay two parameters, as in `table`.

// The serial of the record that an item is about, 0 for none.
fn sought(holder: u32, target: Target) -> u32
    ensures { result ≡ sought holder target }
{
    match target {
        Target::Placeholder => holder,
        Target::Serial { serial } => serial,
    }
}

// What is asked of the record that an item is about, if there is one.
fn act_on(
    t: &mut [u8],
    n: usize,
    holder: u32,
    target: Target,
    deed: Deed,
    fresh: &[u8],
) -> Performed
    requires { Table n t.old }
    ensures { leaves result t.new ≡ carried_out t.old (about_plan (in_places n fresh.now) holder t.old deed target) }
{
    let serial = sought(holder, target);
    match search::find(t, n, serial) {
        Some(i) => deeds::act_at(t, n, i, holder, deed, fresh),
        None => plans::fail(Reason::ObjectNotFound),
    }
}

// One command carried out on the stored table: its answer, the placeholder after it, and the table
// that it leaves.
pub fn perform(t: &mut [u8], n: usize, holder: u32, command: Command, fresh: &[u8]) -> Performed
    requires { Table n t.old }
    ensures { leaves result t.new ≡ performing n fresh.now holder t.old command }
{
    match command {
        Command::Unsupported => plans::fail(Reason::OperationNotSupported),
        Command::Invalid => plans::fail(Reason::InvalidField),
        Command::Create { wanted } => births::create(t, n, wanted, fresh),
        Command::Rekey { target, offset } => {
            act_on(t, n, holder, target, Deed::Replace(offset), fresh)
        }
        Command::GetUsageAllocation { target, amount } => {
            act_on(t, n, holder, target, Deed::Allocate(amount), fresh)
        }
        Command::Activate { target } => {
            act_on(t, n, holder, target, Deed::Move(rules::ACTIVATE, 0), fresh)
        }
        Command::Revoke { target, code } => {
            act_on(t, n, holder, target, Deed::Move(rules::REVOKE, code), fresh)
        }
        Command::Destroy { target } => act_on(
            t,
            n,
            holder,
            target,
            Deed::Move(rules::DESTROY, 0),
            fresh,
        ),
        Command::GetAttributes { target } => act_on(t, n, holder, target, Deed::Show, fresh),
        Command::Get { target } => act_on(t, n, holder, target, Deed::Give, fresh),
        Command::Locate { name } => locate::locate(t, n, name),
    }
}
