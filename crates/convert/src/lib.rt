// The converter: a sound table of 01, with bodies of 56 bytes, or of L3, with bodies of 72, becomes
// the table of today, with what is new not set: no name, and of a table of 01 no date and the
// latest clock 0. Anything else is declined, and nothing is written then.
#![tactic(auto)]

ghost use Rattle.std.specs.Prelude.{◌≡◌};
ghost use Rattle.std.proofs.lemmas.List.Edits.{sets};
ghost use Rattle.table.specs.Layout.{body_start, small_count};
ghost use Rattle.soundness.specs.Sound.{sound};
ghost use Rattle.convert.specs.Old.{BothTables, BothPlaces, old_body_at, lengthened, widened};
ghost use Rattle.convert.specs.Convert.{converts, converted, if_sound};

use table::Layout;

// The bytes of a body of 01 and of L3, and those of their tables.
const PLAIN_BODY: usize = 56;

const DATED_BODY: usize = 72;

pub const PLAIN_SIZE: usize = Layout::LEAD + (Layout::LINE + PLAIN_BODY) * Layout::SMALL_COUNT;

pub const DATED_SIZE: usize = Layout::LEAD + (Layout::LINE + DATED_BODY) * Layout::SMALL_COUNT;

// Copies the body of place i, of w bytes, with zeros behind it. `fill` shows the sizes and counts
// the places.
fn copy_body(old: &[u8], new: &mut [u8], w: usize, n: usize, i: usize)
    requires { BothPlaces w n old.now new.old i }
    ensures { new.new ≡ sets new.old (body_start n i) (lengthened w (old_body_at w n old.now i)) }
{
    let zeros = [0u8; Layout::BODY];
    let from = Layout::line(n) + w * i;
    let layout = Layout { places: n };
    let to = layout.body(i);
    octets::put_all(new, to, &old[from..from + w]);
    octets::put_all(new, to + w, &zeros[w..]);
}

// Writes the new table of an old one: lead and lines, then each body. `store_sound` shows the
// sizes.
fn fill(old: &[u8], new: &mut [u8], w: usize, n: usize)
    requires { BothTables w n old.now new.old }
    ensures { new.new ≡ widened w n old.now }
{
    let front = Layout::line(n);
    octets::put_all(new, 0, &old[..front]);
    for i in 0..n {
        copy_body(old, new, w, n, i);
    }
}

// Puts the new table of an old one with bodies of w bytes together aside, and stores it if the
// check of today finds it sound: answers whether it does. `convert` shows the sizes.
fn store_sound(old: &[u8], new: &mut [u8], w: usize) -> bool
    requires { BothTables w small_count old.now new.old }
    ensures value { result ≡ sound small_count (widened w small_count old.now) }
    ensures after { new.new ≡ if_sound w old.now new.old }
{
    let mut wide = [0u8; Layout::SMALL_SIZE];
    fill(old, &mut wide, w, Layout::SMALL_COUNT);
    if !soundness::is_sound(&wide, Layout::SMALL_COUNT) {
        return false;
    }
    octets::put_all(new, 0, &wide);
    true
}

// Converts a table: answers whether `old` is a sound table of 01 or of L3, and `new` has the bytes
// of a table of today. `new` is then that table, and else as it was. Any bytes are taken. Its size,
// the zeros that a lead of 01 has, and the check of what it becomes say whether the old one was
// sound.
pub fn convert(old: &[u8], new: &mut [u8]) -> bool
    ensures value { result ≡ converts old.now new.old }
    ensures after { new.new ≡ converted old.now new.old }
{
    if new.len() != Layout::SMALL_SIZE {
        return false;
    }
    if old.len() == DATED_SIZE {
        return store_sound(old, new, DATED_BODY);
    }
    if old.len() != PLAIN_SIZE {
        return false;
    }
    if !octets::all_zero(&old[Layout::LATEST_IN..Layout::LEAD]) {
        return false;
    }
    store_sound(old, new, PLAIN_BODY)
}
