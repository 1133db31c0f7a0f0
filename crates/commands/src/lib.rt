// The commands of a script of bench cards that change how a request is served from there on, and
// room for a script. Assumes nothing: any bytes are read, and what is no such line is told.
#![tactic(auto)]

ghost use Rattle.std.specs.Prelude.{◌≡◌, replicate};
ghost use Rattle.script.specs.Numbers.{number_in, clock_in};
ghost use Rattle.commands.specs.Commands.{with_clock, lending, places_in};

use table::Layout;

// The bytes of room for a script: one more than the longest.
pub const SCRIPT_ROOM: usize = 1048576;

// What is lent to a call besides the request.
#[derive(Clone, Copy)]
pub enum Buffer {
    Table,
    Strip,
    Output,
    Second,
}

// How a request is served: the clock, and how many bytes of output, strip, table and second buffer
// are lent.
#[derive(Clone, Copy)]
pub struct Setting {
    pub clock: i64,
    pub room: usize,
    pub strip: usize,
    pub size: usize,
    pub undo: usize,
}

// Room for a script, all zero.
pub fn script_room() -> [u8; SCRIPT_ROOM]
    ensures { result ≡ replicate 1048576 0 }
{
    [0u8; SCRIPT_ROOM]
}

// `blank`, `blank COUNT`: the place count, which is that of a small table where the line says none.
pub fn places_in(rest: &[u8]) -> Option<usize>
    ensures { result ≡ places_in rest.now }
{
    if rest.is_empty() {
        return Some(Layout::SMALL_COUNT);
    }
    let n = script::number_in(rest)?;
    if (n == Layout::SMALL_COUNT) | (n == Layout::LARGE_COUNT) {
        Some(n)
    } else {
        None
    }
}

// `clock NUMBER`: the clock from here on, in the setting after the line, if it is one of a script.
pub fn set_clock(rest: &[u8], setting: Setting) -> Option<Setting>
    ensures { result ≡ with_clock setting (clock_in rest.now) }
{
    let clock = script::clock_in(rest)?;
    let mut s = setting;
    s.clock = clock;
    Some(s)
}

// `size NUMBER`, `strip NUMBER`, `room NUMBER`, `undo NUMBER`: how many bytes of a buffer are lent
// from here on, in the setting after the line, if it is one of a script.
pub fn lend(rest: &[u8], buffer: Buffer, setting: Setting) -> Option<Setting>
    ensures { result ≡ lending buffer setting (number_in rest.now) }
{
    let n = script::number_in(rest)?;
    let mut s = setting;
    match buffer {
        Buffer::Table => s.size = n,
        Buffer::Strip => s.strip = n,
        Buffer::Output => s.room = n,
        Buffer::Second => s.undo = n,
    }
    Some(s)
}
