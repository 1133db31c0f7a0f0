// What may happen to a record: which operation moves it from state to state, what it grants, and
// why an operation fails. It asks nothing and knows nothing of TTLV; what becomes of the record is
// for changes.
#![tactic(auto)]

ghost use Rattle.std.specs.Prelude.{◌≡◌};
ghost use Rattle.rules.specs.Numbers.{reason_number};
ghost use Rattle.rules.specs.States.{next_state, granting};

use names::Name;

// Operation, code, state and unit stay numbers: `next_state` and `grant` answer for any, since a
// request or a stored table may have any.

// Why an item fails, each with its Result Reason number.
#[derive(Clone, Copy, PartialEq, Eq, Debug)]
pub enum Reason {
    OperationNotSupported = 0x05,
    InvalidField = 0x07,
    ObjectNotFound = 0x37,
    ObjectDestroyed = 0x36,
    PermissionDenied = 0x0C,
    WrongKeyLifecycleState = 0x43,
    UsageLimitExceeded = 0x1A,
    ServerLimitExceeded = 0x3A,
    NonUniqueName = 0x35,
}

// The attributes that Create gives to a key; unit 0 and total 0 mean no usage limit, a date of 0 is
// not set.
#[derive(Clone, Copy)]
pub struct Attributes {
    pub bits: u16,
    pub mask: u32,
    pub unit: u8,
    pub total: u64,
    pub activation: u64,
    pub deactivation: u64,
    pub name: Name,
}

// The operations that move a state, as `Numbers` has them.
pub const ACTIVATE: u32 = 0x12;

pub const REVOKE: u32 = 0x13;

pub const DESTROY: u32 = 0x14;

// The states, as `Numbers` has them.
pub const PRE_ACTIVE: u8 = 1;

pub const ACTIVE: u8 = 2;

pub const DEACTIVATED: u8 = 3;

const COMPROMISED: u8 = 4;

const DESTROYED: u8 = 5;

const DESTROYED_COMPROMISED: u8 = 6;

// The Result Reason number of a failure.
pub fn reason_number(reason: Reason) -> u32
    ensures { result ≡ reason_number reason }
{
    reason as u32
}

// What an operation with a revocation code makes of a state: the next one, or the failure.
pub fn next_state(operation: u32, code: u32, state: u8) -> Result<u8, Reason>
    ensures { result ≡ next_state operation code state }
{
    match operation {
        ACTIVATE => match state {
            PRE_ACTIVE => Ok(ACTIVE),
            _ => Err(Reason::WrongKeyLifecycleState),
        },
        REVOKE => match code {
            2..=3 => match state {
                PRE_ACTIVE..=DEACTIVATED => Ok(COMPROMISED),
                DESTROYED => Ok(DESTROYED_COMPROMISED),
                _ => Err(Reason::WrongKeyLifecycleState),
            },
            _ => match state {
                ACTIVE => Ok(DEACTIVATED),
                _ => Err(Reason::WrongKeyLifecycleState),
            },
        },
        DESTROY => match state {
            PRE_ACTIVE => Ok(DESTROYED),
            DEACTIVATED => Ok(DESTROYED),
            COMPROMISED => Ok(DESTROYED_COMPROMISED),
            DESTROYED..=DESTROYED_COMPROMISED => Err(Reason::ObjectDestroyed),
            _ => Err(Reason::WrongKeyLifecycleState),
        },
        _ => Err(Reason::WrongKeyLifecycleState),
    }
}

// What a grant of an amount makes of a count: state first, then limit, then amount.
pub fn grant(state: u8, unit: u8, count: u64, amount: u64) -> Result<u64, Reason>
    ensures { result ≡ granting state unit count amount }
{
    if state != ACTIVE {
        return Err(Reason::WrongKeyLifecycleState);
    }
    if unit == 0 {
        return Err(Reason::InvalidField);
    }
    if count < amount {
        return Err(Reason::UsageLimitExceeded);
    }
    Ok(count - amount)
}
