// Why a request is turned away, and what a caller outside is told of a call: one number for each
// reason. It knows no request and no table. Assumes nothing.
#![tactic(auto)]

ghost use Rattle.std.specs.Prelude.{◌≡◌};
ghost use Rattle.refusal.specs.Numbers.{refusal_number, told_of};

// Why a request is turned away, with nothing touched. The numbers are those that C sees.
#[derive(Clone, Copy, Debug, PartialEq, Eq)]
pub enum Refusal {
    // less output room than the longest response takes
    Room = 1,
    // a fresh strip of another size than it has
    Strip = 2,
    // bytes that are no sound table
    Table = 3,
    // an empty request, or one that is too long
    Length = 4,
    // bytes that are no TTLV message
    Message = 5,
    // no request frame
    Frame = 6,
    // another protocol version than 2.1
    Version = 7,
    // a Batch Count that is not allowed, or not the number of items
    Count = 8,
    // a Batch Error Continuation Option that there is not
    Continuation = 9,
    // a clock below 1
    Clock = 10,
    // a second buffer of another size than the table's
    Buffer = 11,
}

impl From<Refusal> for u32 {
    ghost from_gives = { λ refusal number. number ≡ refusal_number refusal };

    fn from(refusal: Refusal) -> u32 {
        refusal as u32
    }
}

// What a caller outside is told of a call: 0 and the length of the response, or the number of the
// refusal and length 0.
pub fn told(served: Result<usize, Refusal>) -> (u32, usize)
    ensures { result ≡ told_of served }
{
    match served {
        Ok(length) => (0, length),
        Err(refusal) => (u32::from(refusal), 0),
    }
}
