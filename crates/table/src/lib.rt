// The stored table: lent bytes with a lead, a line for each place and a body for each place.
// It knows nothing of TTLV and nothing of what may happen to a key. Where a field stands in the
// lead, a line or a body is said here and nowhere else.
#![tactic(auto)]

ghost use Rattle.std.specs.Prelude.{◌≡◌, ◌+◌, ◌^◌, ◌≤◌, ◌<◌, length};
ghost use Rattle.table.specs.Layout.{HasLead, HasLine, Place, line_start, body_start, size_of};
ghost use Rattle.table.specs.Records.{serial_at, name_at, last_serial, with_last, places_said, latest_clock, with_clock};

use names::Name;

// A table's bytes and its place count stay two parameters: a struct that holds the bytes by
// `&mut` was tried, and each function that takes it has to promise the same reference again.

// The layout of a table of so many places: constants for sizes and for where each field stands, and
// the offsets of a place's line and body.
#[derive(Clone, Copy)]
pub struct Layout {
    pub places: usize,
}

impl Layout {
    pub const LEAD: usize = 16;

    pub const LINE: usize = 16;

    pub const BODY: usize = 112;

    pub const MATERIAL: usize = 32;

    // The places of a small table, and its bytes.
    pub const SMALL_COUNT: usize = 64;

    pub const SMALL_SIZE: usize = Self::LEAD + (Self::LINE + Self::BODY) * Self::SMALL_COUNT;

    // The places of a large table, and its bytes.
    pub const LARGE_COUNT: usize = 256;

    pub const LARGE_SIZE: usize = Self::LEAD + (Self::LINE + Self::BODY) * Self::LARGE_COUNT;

    // Where the fields stand in the lead.
    pub const LAST_IN: usize = 0;

    pub const PLACES_IN: usize = 4;

    pub const LATEST_IN: usize = 8;

    // Where the fields stand in a line.
    pub const SERIAL_IN: usize = 0;

    pub const STATE_IN: usize = 4;

    pub const UNIT_IN: usize = 5;

    pub const BITS_IN: usize = 6;

    pub const REPLACED_IN: usize = 8;

    pub const REPLACEMENT_IN: usize = 12;

    // Where the fields stand in a body.
    pub const TOTAL_IN: usize = 0;

    pub const COUNT_IN: usize = 8;

    pub const MASK_IN: usize = 16;

    pub const ZEROS_IN: usize = 20;

    pub const MATERIAL_IN: usize = 24;

    pub const ACTIVATION_IN: usize = 56;

    pub const DEACTIVATION_IN: usize = 64;

    pub const NAME_IN: usize = 72;

    // Where the line of place i starts. The caller shows that the offset is a usize.
    pub fn line(i: usize) -> usize
        requires { line_start i < 2 ^ 64 }
        ensures { result ≡ line_start i }
    {
        Self::LEAD + Self::LINE * i
    }

    // Where the body of place i starts. The caller shows that the place is one of the table's, and
    // that the table's size is a usize.
    pub fn body(self, i: usize) -> usize
        requires { (i < self.places) × (size_of self.places < 2 ^ 64) }
        ensures { result ≡ body_start self.places i }
    {
        Self::LEAD + Self::LINE * self.places + Self::BODY * i
    }

    // The bytes of the whole table. The caller shows that their number is a usize.
    pub fn size(self) -> usize
        requires { size_of self.places < 2 ^ 64 }
        ensures { result ≡ size_of self.places }
    {
        Self::LEAD + (Self::LINE + Self::BODY) * self.places
    }
}

// What a place holds, as its line and its body say it.
#[derive(Clone, Copy)]
pub struct Record {
    pub serial: u32,
    pub state: u8,
    pub unit: u8,
    pub bits: u16,
    pub replaced: u32,
    pub replacement: u32,
    pub total: u64,
    pub count: u64,
    pub mask: u32,
    pub material: [u8; 32],
    // dates, 0 where none is set
    pub activation: u64,
    pub deactivation: u64,
    pub name: Name,
}

// The last serial issued.
pub fn last_serial(t: &[u8]) -> u32
    requires { HasLead t.now }
    ensures { result ≡ last_serial t.now }
{
    octets::number_at(t, Layout::LAST_IN, 4) as u32
}

// Makes this serial the last one issued.
pub fn set_last_serial(t: &mut [u8], serial: u32)
    requires { HasLead t.old }
    ensures { t.new ≡ with_last t.old serial }
{
    octets::put(t, Layout::LAST_IN, 4, serial as u64);
}

// The place count that the lead says.
pub fn places_said(t: &[u8]) -> u32
    requires { HasLead t.now }
    ensures { result ≡ places_said t.now }
{
    octets::number_at(t, Layout::PLACES_IN, 4) as u32
}

// The latest clock seen, as its 64 bits.
pub fn latest_clock(t: &[u8]) -> u64
    requires { HasLead t.now }
    ensures { result ≡ latest_clock t.now }
{
    octets::number_at(t, Layout::LATEST_IN, 8)
}

// Makes this clock the latest seen.
pub fn set_latest_clock(t: &mut [u8], clock: u64)
    requires { HasLead t.old }
    ensures { t.new ≡ with_clock t.old clock }
{
    octets::put(t, Layout::LATEST_IN, 8, clock);
}

// The serial of place i, read by itself.
pub fn serial_at(t: &[u8], i: usize) -> u32
    requires { HasLine t.now i }
    ensures { result ≡ serial_at t.now i }
{
    let at = Layout::line(i);
    octets::number_at(t, at + Layout::SERIAL_IN, 4) as u32
}

// The name of place i, read by itself.
pub fn name_at(t: &[u8], n: usize, i: usize) -> Name
    requires { Place n t.now i }
    ensures { result ≡ name_at n t.now i }
{
    let layout = Layout { places: n };
    let at = layout.body(i) + Layout::NAME_IN;
    let len = octets::number_at(t, at, 1) as u8;
    let zeros = octets::number_at(t, at + 1, 7);
    let words = words::words_at(t, at + 8);
    Name { len, zeros, words }
}

// The first eight bytes of the name of place i as a number, read by themselves.
pub fn name_start(t: &[u8], n: usize, i: usize) -> u64
    requires { Place n t.now i }
    ensures { result ≡ (name_at n t.now i).words.a }
{
    let layout = Layout { places: n };
    let at = layout.body(i) + Layout::NAME_IN;
    octets::number_at(t, at + 8, 8)
}
