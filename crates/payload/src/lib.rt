// Payloads: what an item asks for, as a command, or that it is not allowed or not supported.
// It knows TTLV by its items alone, and looks at no table.
#![tactic(auto)]

ghost use Rattle.std.specs.Prelude.{◌≡◌, option_map};
ghost use Rattle.ttlv.specs.Tree.{tree_of};
ghost use Rattle.runs.specs.Runs.{behind};
ghost use Rattle.rules.specs.States.{code_ok};
ghost use Rattle.target_read.specs.Target.{target_in};
ghost use Rattle.payload.specs.Payload.{create_in, rekey_in, alone_in, allocation_in, revoke_in, locate_in, or_invalid, command};
ghost use Rattle.payload.specs.Readers.{alone_of};

use names::Name;
use rules::Attributes;
use runs::Run;
use target_read::Target;

// An operation stays a number: `read_command` answers for any.

// The operations.
const CREATE: u32 = 0x01;

const REKEY: u32 = 0x04;

const LOCATE: u32 = 0x08;

const GET: u32 = 0x0A;

const GET_ATTRIBUTES: u32 = 0x0B;

const GET_USAGE_ALLOCATION: u32 = 0x11;

// The one Object Type: a symmetric key.
const SYMMETRIC_KEY: u64 = 2;

// What an item asks for.
#[derive(Clone, Copy)]
pub enum Command {
    // no operation of ours
    Unsupported,
    // a payload of wrong shape or with a value not allowed
    Invalid,
    Create { wanted: Attributes },
    Rekey { target: Target, offset: Option<u32> },
    GetUsageAllocation { target: Target, amount: u64 },
    Activate { target: Target },
    Revoke { target: Target, code: u32 },
    Destroy { target: Target },
    GetAttributes { target: Target },
    Get { target: Target },
    Locate { name: Name },
}

// The target at the front, and the run behind it.
fn read_target<'a>(run: Run<'a>) -> Option<(Target, Run<'a>)>
    ensures { option_map behind result ≡ target_in (tree_of run.entry.bytes.now) }
{
    let (target, next) = target_read::read_target(run.bytes)?;
    let bytes = &run.bytes[next..];
    Some((target, Run { bytes }))
}

// The payload of Create.
fn read_create(run: Run<'_>) -> Option<Command>
    ensures { result ≡ create_in (tree_of run.entry.bytes.now) }
{
    let (kind, rest) = run.number(tags::OBJECT_TYPE, ttlv_types::ENUMERATION)?;
    if kind != SYMMETRIC_KEY {
        return None;
    }
    let (body, rest) = rest.body(tags::ATTRIBUTES)?;
    rest.end()?;
    let wanted = attributes_read::read_attributes(body)?;
    Some(Command::Create { wanted })
}

// The payload of Re-key: its Offset, if it is given, is the last item.
fn read_rekey(run: Run<'_>) -> Option<Command>
    ensures { result ≡ rekey_in (tree_of run.entry.bytes.now) }
{
    let (target, rest) = read_target(run)?;
    if rest.is_empty() {
        return Some(Command::Rekey {
            target,
            offset: None,
        });
    }
    let (seconds, rest) = rest.word(tags::OFFSET, ttlv_types::INTERVAL)?;
    rest.end()?;
    Some(Command::Rekey {
        target,
        offset: Some(seconds),
    })
}

// The command of an operation that asks for nothing but its target.
fn alone(operation: u32, target: Target) -> Command
    ensures { result ≡ alone_of operation target }
{
    if operation == rules::ACTIVATE {
        return Command::Activate { target };
    }
    if operation == rules::DESTROY {
        return Command::Destroy { target };
    }
    if operation == GET {
        return Command::Get { target };
    }
    Command::GetAttributes { target }
}

// The payload of Activate, Destroy, Get or Get Attributes.
fn read_alone(operation: u32, run: Run<'_>) -> Option<Command>
    ensures { result ≡ alone_in (alone_of operation) (tree_of run.entry.bytes.now) }
{
    let (target, rest) = read_target(run)?;
    rest.end()?;
    Some(alone(operation, target))
}

// The payload of Get Usage Allocation.
fn read_allocation(run: Run<'_>) -> Option<Command>
    ensures { result ≡ allocation_in (tree_of run.entry.bytes.now) }
{
    let (target, rest) = read_target(run)?;
    let (amount, rest) = rest.number(tags::USAGE_LIMITS_COUNT, ttlv_types::LONG_INTEGER)?;
    if !values::above_zero(amount) {
        return None;
    }
    rest.end()?;
    Some(Command::GetUsageAllocation { target, amount })
}

// Whether there is a revocation code of this number.
fn code_ok(code: u64) -> bool
    ensures { result ≡ code_ok code }
{
    (1 <= code) & (code <= 7)
}

// The payload of Revoke.
fn read_revoke(run: Run<'_>) -> Option<Command>
    ensures { result ≡ revoke_in (tree_of run.entry.bytes.now) }
{
    let (target, rest) = read_target(run)?;
    let (body, rest) = rest.body(tags::REVOCATION_REASON)?;
    rest.end()?;
    let (code, inner) = body.number(tags::REVOCATION_REASON_CODE, ttlv_types::ENUMERATION)?;
    if !code_ok(code) {
        return None;
    }
    inner.end()?;
    Some(Command::Revoke {
        target,
        code: code as u32,
    })
}

// The payload of Locate.
fn read_locate(run: Run<'_>) -> Option<Command>
    ensures { result ≡ locate_in (tree_of run.entry.bytes.now) }
{
    let (body, rest) = run.body(tags::ATTRIBUTES)?;
    rest.end()?;
    let name = name_read::read_only_name(body)?;
    Some(Command::Locate { name })
}

// What an item with this operation and this payload asks for, if its payload is allowed.
fn read_payload(operation: u32, run: Run<'_>) -> Option<Command>
    ensures { or_invalid result ≡ command operation (tree_of run.entry.bytes.now) }
{
    match operation {
        CREATE => read_create(run),
        REKEY => read_rekey(run),
        GET_USAGE_ALLOCATION => read_allocation(run),
        rules::REVOKE => read_revoke(run),
        LOCATE => read_locate(run),
        rules::ACTIVATE => read_alone(operation, run),
        rules::DESTROY => read_alone(operation, run),
        GET_ATTRIBUTES => read_alone(operation, run),
        GET => read_alone(operation, run),
        _ => Some(Command::Unsupported),
    }
}

// What an item with this operation and this payload asks for.
pub fn read_command(operation: u32, run: Run<'_>) -> Command
    ensures { result ≡ command operation (tree_of run.entry.bytes.now) }
{
    read_payload(operation, run).unwrap_or(Command::Invalid)
}
