// What programs lend to a call, made ready in bytes of their own: a blank table, a strip, room full
// of one byte. It stands below the engine and knows nothing of requests.
#![tactic(auto)]

ghost use Rattle.std.specs.Prelude.{◌≡◌, length, replicate};
ghost use Rattle.octets.specs.Octets.{counted_from};
ghost use Rattle.table.specs.Layout.{Table};
ghost use Rattle.table.specs.Records.{blank};

use table::Layout;

// Every byte of s is b.
pub fn fill(s: &mut [u8], b: u8)
    ensures { s.new ≡ replicate (length s.old) b }
{
    s.fill(b);
}

// Makes t the blank table of n places, "all zero but the place count". The caller shows that t has
// the size of one.
pub fn blank_over(t: &mut [u8], n: usize)
    requires { Table n t.old }
    ensures { t.new ≡ blank n }
{
    fill(t, 0);
    octets::put(t, Layout::PLACES_IN, 4, n as u64);
}

// The bytes 0 to 255 again and again: of a strip, twice.
pub fn fill_strip(s: &mut [u8])
    ensures { s.new ≡ counted_from 0 (length s.old) }
{
    for i in 0..s.len() {
        s[i] = (i % 256) as u8;
    }
}
