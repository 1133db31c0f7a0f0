// The feed program's work: calls of the engine in a plain binary form from one stream, and all that
// each of them left, to another. What a head says is proved, and the call is the engine's; what is
// written is tested and not proved. docs/CONTRACTS.md has the form. A failed read ends each function
// with its error, and so does a failed write of what is said of it.
#![tactic(auto)]

ghost use Rattle.std.specs.Prelude.{◌≡◌, ◌≤◌, length};
ghost use Rattle.octets.specs.Octets.{from_be, part};
ghost use Rattle.feedlib.specs.Head.{head_of};

use std::io;
use std::io::{Read, Write};

// The bytes of a head.
const HEAD: usize = 28;

// The most that each buffer holds: more than a call takes, so that wrong sizes can be sent.
const REQUEST_MOST: usize = 9216;

const TABLE_MOST: usize = 33792;

const STRIP_MOST: usize = 1024;

const OUTPUT_MOST: usize = 9216;

const UNDO_MOST: usize = 33792;

// What stands in front of a call: the lengths of its buffers, and the clock.
#[derive(Clone, Copy)]
struct Head {
    request: usize,
    table: usize,
    strip: usize,
    room: usize,
    clock: i64,
    undo: usize,
}

// The length that stands at this place of a head. `read_head` shows what it asks.
fn length_at(s: &[u8], at: usize) -> usize
    requires at_bound { at ≤ 24 }
    requires s_len { length s.now ≡ 28 }
    ensures { result ≡ from_be (part s.now at 4) }
{
    octets::number_at(s, at, 4) as usize
}

// A head's parts. `next` shows its size.
fn read_head(s: &[u8]) -> Head
    requires { length s.now ≡ 28 }
    ensures { result ≡ head_of s.now }
{
    Head {
        request: length_at(s, 0),
        table: length_at(s, 4),
        strip: length_at(s, 8),
        room: length_at(s, 12),
        clock: clock::clock_of(octets::number_at(s, 16, 8)),
        undo: length_at(s, 24),
    }
}

// Says that a call is too large for the buffers.
fn too_large(rt: &impl Eprint) -> io::Result<bool> {
    rt.eprint(
        "feed: a length is above what is held: 9216 for request and output, 33792 for table and second buffer, 1024 for the strip\n",
    )?;
    Ok(false)
}

// Reads all of s; if the input ends before, says so.
fn take<R: Read>(rt: &impl Eprint, from: &mut R, s: &mut [u8]) -> io::Result<bool> {
    if readlib::read_full(from, s)? == s.len() {
        return Ok(true);
    }
    rt.eprint("feed: the input ends inside a case\n")?;
    Ok(false)
}

// Writes what a call left.
fn put<W: Write>(
    to: &mut W,
    number: u32,
    used: usize,
    table: &[u8],
    out: &[u8],
    undo: &[u8],
) -> io::Result<()> {
    let mut front = [0u8; 12];
    octets::put(&mut front, 0, 4, number as u64);
    octets::put(&mut front, 4, 8, used as u64);
    to.write_all(&front)?;
    to.write_all(table)?;
    to.write_all(out)?;
    to.write_all(undo)
}

// Writes what a call left; if the output takes no more, says so.
fn give<W: Write>(
    rt: &impl Eprint,
    to: &mut W,
    number: u32,
    used: usize,
    table: &[u8],
    out: &[u8],
    undo: &[u8],
) -> io::Result<bool> {
    if put(to, number, used, table, out, undo).is_ok() {
        return Ok(true);
    }
    rt.eprint("feed: the output takes no more\n")?;
    Ok(false)
}

// Reads a call's bytes, buffer by buffer. Answers whether they were all there.
fn take_all<R: Read>(
    rt: &impl Eprint,
    from: &mut R,
    request: &mut [u8],
    table: &mut [u8],
    strip: &mut [u8],
    out: &mut [u8],
    undo: &mut [u8],
) -> io::Result<bool> {
    if !take(rt, from, request)? {
        return Ok(false);
    }
    if !take(rt, from, table)? {
        return Ok(false);
    }
    if !take(rt, from, strip)? {
        return Ok(false);
    }
    if !take(rt, from, out)? {
        return Ok(false);
    }
    take(rt, from, undo)
}

// One call in buffers of its sizes: the bytes read, the engine called, what it left written.
// Answers whether to go on.
fn call<R: Read, W: Write>(
    rt: &impl Eprint,
    from: &mut R,
    to: &mut W,
    head: Head,
    request: &mut [u8],
    table: &mut [u8],
    strip: &mut [u8],
    out: &mut [u8],
    undo: &mut [u8],
) -> io::Result<bool> {
    if !take_all(rt, from, request, table, strip, out, undo)? {
        return Ok(false);
    }
    let served = engine::serve(request, table, strip, head.clock, out, undo);
    let (number, length) = refusal::told(served);
    give(rt, to, number, length, table, out, undo)
}

// The call that a head stands in front of. Answers whether to go on.
fn headed<R: Read, W: Write>(
    rt: &impl Eprint,
    from: &mut R,
    to: &mut W,
    head: Head,
) -> io::Result<bool> {
    let r = head.request;
    let t = head.table;
    let s = head.strip;
    let o = head.room;
    let u = head.undo;
    if REQUEST_MOST < r {
        return too_large(rt);
    }
    if TABLE_MOST < t {
        return too_large(rt);
    }
    if STRIP_MOST < s {
        return too_large(rt);
    }
    if OUTPUT_MOST < o {
        return too_large(rt);
    }
    if UNDO_MOST < u {
        return too_large(rt);
    }
    let mut request = [0u8; REQUEST_MOST];
    let mut table = [0u8; TABLE_MOST];
    let mut strip = [0u8; STRIP_MOST];
    let mut out = [0u8; OUTPUT_MOST];
    let mut undo = [0u8; UNDO_MOST];
    call(
        rt,
        from,
        to,
        head,
        &mut request[..r],
        &mut table[..t],
        &mut strip[..s],
        &mut out[..o],
        &mut undo[..u],
    )
}

// The next case, if there is one. Answers whether to go on.
fn next<R: Read, W: Write>(rt: &impl Eprint, from: &mut R, to: &mut W) -> io::Result<bool> {
    let mut head = [0u8; HEAD];
    let n = readlib::read_full(from, &mut head)?;
    if n == 0 {
        return Ok(false);
    }
    if n < HEAD {
        rt.eprint("feed: the input ends inside a head\n")?;
        return Ok(false);
    }
    headed(rt, from, to, read_head(&head))
}

// All cases until the input ends. A proved loop has to end, and nothing says that an input does: it
// counts up to a number that no run reaches.
pub fn run<R: Read, W: Write>(rt: &impl Eprint, from: &mut R, to: &mut W) -> io::Result<()> {
    for _ in 0..u64::MAX {
        if !next(rt, from, to)? {
            break;
        }
    }
    Ok(())
}
