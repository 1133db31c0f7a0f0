// A structure around what a body writes into lent room; what it asks is shown by each caller.
#![tactic(auto)]

ghost use Rattle.std.specs.Prelude.{◌≤◌, ◌-◌, ℕ, List, length};
ghost use Rattle.std.specs.Fn.{FnOnceTakesAtMut, FnOnceReturnsAtMut};
ghost use Rattle.ttlv_around.specs.Around.{behind_head, WroteAround};

// A structure around what a body writes: the body runs on the room behind the head and says how much
// it wrote, and then the head says so too. Each caller shows the room, and that the body keeps to it.
pub fn write_around<F: FnOnce(&mut [u8]) -> usize>(out: &mut [u8], tag: u32, body: F) -> usize
    requires room { 8 ≤ length out.old }
    requires callable { FnOnceTakesAtMut F.FnOnce body (behind_head out.old) }
    requires within { (n : ℕ) (left : List ℕ) → FnOnceReturnsAtMut F.FnOnce body (behind_head out.old) n left → n ≤ length out.old - 8 }
    ensures { WroteAround F.FnOnce body tag out.old out.new result }
{
    let size = body(&mut out[8..]);
    ttlv_put::write_structure(out, tag, size);
    8 + size
}
