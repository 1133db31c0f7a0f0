// Where bytes first differ from the rules of TTLV, for people who look for a mistake in a request.
// Assumes nothing: the function asks nothing of its bytes.
#![tactic(auto)]

ghost use Rattle.std.specs.Prelude.{◌≡◌};
ghost use Rattle.ttlv_fault.specs.Fault.{fault_of};

use ttlv::First;

// Where the item starts at which s first differs from the rules, with structures at most `depth`
// deep; the length of s where it does not.
#[tactic(auto, using(ttlv::proofs::Step::value_ends, ttlv::proofs::Step::group_ends))]
pub fn first_fault(s: &[u8], depth: usize) -> usize
    ensures { result ≡ fault_of depth s.now }
{
    if depth == 0 {
        return 0;
    }
    let mut at: usize = 0;
    let mut t = s;
    loop {
        match ttlv::read_first(t) {
            First::End => return at,
            First::Bad => return at,
            First::Value { next, .. } => {
                at += next;
                t = &t[next..];
            }
            First::Group { next, .. } => {
                let inner = first_fault(&t[8..next], depth - 1);
                if inner != next - 8 {
                    return at + 8 + inner;
                }
                at += next;
                t = &t[next..];
            }
        }
    }
}
