// Runs bench cards: a script of requests, one command a line, through the engine; each response or
// refusal, and bytes of table, output and second buffer, as lines. Assumes nothing; every function
// is proved safe and ends. What a line says is proved; what is printed is tested, and the call is
// the engine's. A failed read or write ends each function with its error.
#![tactic(auto)]

ghost use Rattle.std.specs.Prelude.{◌≡◌};
ghost use Rattle.cardslib.specs.Usual.{usual_setting};

use commands::{Buffer, Setting};
use script_verbs::Verb;
use std::io;
use std::io::Read;
use table::Layout;

// The most bytes of a request in a script, of the strip, of the output and of the second buffer.
const REQUEST_ROOM: usize = 8192;

const STRIP_ROOM: usize = 1024;

const OUTPUT_ROOM: usize = 8192;

const SECOND_ROOM: usize = 33792;

// What the output is full of at first.
const UNTOUCHED: u8 = 255;

// What the second buffer is full of at first.
const SECOND_UNTOUCHED: u8 = 238;

// The setting that a blank table of this size starts with: clock 1, room and strip of theirs, and
// as much of the second buffer.
fn usual(size: usize) -> Setting
    ensures { result ≡ usual_setting size }
{
    Setting {
        clock: 1,
        room: engine::ROOM_LEAST,
        strip: engine::STRIP_SIZE,
        size,
        undo: size,
    }
}

// `blank`, `blank COUNT`: the table, the output, the second buffer and the setting as they are at
// first.
fn blank(rest: &[u8], table: &mut [u8], out: &mut [u8], second: &mut [u8]) -> Option<Setting> {
    let n = commands::places_in(rest)?;
    let size = Layout { places: n }.size();
    if table.len() < size {
        return None;
    }
    lent::fill(table, 0);
    lent::blank_over(&mut table[..size], n);
    lent::fill(out, UNTOUCHED);
    lent::fill(second, SECOND_UNTOUCHED);
    Some(usual(size))
}

// `put OFFSET HEX`: bytes laid over the table, all of them or none.
fn put(rest: &[u8], table: &mut [u8]) -> bool {
    let gap = lines::find(rest, b' ');
    let Some(at) = script::number_in(&rest[..gap]) else {
        return false;
    };
    let mut bytes = [0u8; Layout::LARGE_SIZE];
    let Some(n) = hex_text::bytes_in(&rest[gap..], &mut bytes) else {
        return false;
    };
    if n == 0 {
        return false;
    }
    if table.len() < at {
        return false;
    }
    if table.len() - at < n {
        return false;
    }
    octets::put_all(table, at, &bytes[..n]);
    true
}

// `table NAME: OFFSET LENGTH`, `output NAME: OFFSET LENGTH`, `second NAME: OFFSET LENGTH`: bytes of
// s as a line.
fn show(rt: &impl Print, rest: &[u8], s: &[u8]) -> io::Result<bool> {
    let stop = lines::name_end(rest);
    let from = lines::past(rest, lines::past(rest, stop));
    let Some(script::Span { at, len }) = script::span_in(&rest[from..]) else {
        return Ok(false);
    };
    if s.len() < at {
        return Ok(false);
    }
    if s.len() - at < len {
        return Ok(false);
    }
    let end = at + len;
    printlib::name(rt, &rest[..stop])?;
    printlib::line(rt, &s[at..end])?;
    Ok(true)
}

// Serves a request by the setting, and prints what came of it, or of what more is lent than there
// is.
fn answer(
    rt: &impl Print,
    request: &[u8],
    table: &mut [u8],
    strip: &[u8],
    out: &mut [u8],
    second: &mut [u8],
    s: Setting,
) -> io::Result<()> {
    let size = s.size;
    let given = s.strip;
    let room = s.room;
    let undo = s.undo;
    if table.len() < size {
        return rt.write_all(b"no such size\n");
    }
    if strip.len() < given {
        return rt.write_all(b"no such strip\n");
    }
    if out.len() < room {
        return rt.write_all(b"no such room\n");
    }
    if second.len() < undo {
        return rt.write_all(b"no such undo\n");
    }
    let served = engine::serve(
        request,
        &mut table[..size],
        &strip[..given],
        s.clock,
        &mut out[..room],
        &mut second[..undo],
    );
    let (number, length) = refusal::told(served);
    printlib::answer(rt, out, number, length)
}

// `request NAME: HEX`: serves these bytes.
fn request(
    rt: &impl Print,
    rest: &[u8],
    table: &mut [u8],
    strip: &[u8],
    out: &mut [u8],
    second: &mut [u8],
    setting: Setting,
) -> io::Result<bool> {
    let stop = lines::name_end(rest);
    if stop == rest.len() {
        return Ok(false);
    }
    let from = lines::past(rest, stop);
    let mut bytes = [0u8; REQUEST_ROOM];
    let Some(n) = hex_text::bytes_in(&rest[from..], &mut bytes) else {
        return Ok(false);
    };
    printlib::name(rt, &rest[..stop])?;
    answer(rt, &bytes[..n], table, strip, out, second, setting)?;
    Ok(true)
}

// One command carried out: the setting after it, if the line is one of a script.
fn carry_out(
    rt: &impl Print,
    line: &[u8],
    table: &mut [u8],
    strip: &[u8],
    out: &mut [u8],
    second: &mut [u8],
    s: Setting,
) -> io::Result<Option<Setting>> {
    let gap = lines::find(line, b' ');
    let verb = script_verbs::verb_of(&line[..gap]);
    let from = lines::past(line, gap);
    let rest = &line[from..];
    let next = match verb {
        Verb::Blank => blank(rest, table, out, second),
        Verb::Put => put(rest, table).then_some(s),
        Verb::Clock => commands::set_clock(rest, s),
        Verb::Size => commands::lend(rest, Buffer::Table, s),
        Verb::Strip => commands::lend(rest, Buffer::Strip, s),
        Verb::Room => commands::lend(rest, Buffer::Output, s),
        Verb::Request => request(rt, rest, table, strip, out, second, s)?.then_some(s),
        Verb::Table => show(rt, rest, table)?.then_some(s),
        Verb::Output => show(rt, rest, out)?.then_some(s),
        Verb::Undo => commands::lend(rest, Buffer::Second, s),
        Verb::Second => show(rt, rest, second)?.then_some(s),
        Verb::Unknown => None,
    };
    Ok(next)
}

// One line: the setting after it.
fn one_line(
    rt: &impl Print,
    line: &[u8],
    table: &mut [u8],
    strip: &[u8],
    out: &mut [u8],
    second: &mut [u8],
    s: Setting,
) -> io::Result<Setting> {
    if lines::is_silent(line) {
        return Ok(s);
    }
    let Some(next) = carry_out(rt, line, table, strip, out, second, s)? else {
        printlib::bad_line(rt, line)?;
        return Ok(s);
    };
    Ok(next)
}

// All lines of a text, from this setting on.
fn script(
    rt: &impl Print,
    text: &[u8],
    table: &mut [u8],
    strip: &[u8],
    out: &mut [u8],
    second: &mut [u8],
    first: Setting,
) -> io::Result<()> {
    let mut s = first;
    let mut left = text;
    // by hand: with `split` the check gives no proof, where a loop lends so many slices on
    while 0 < left.len() {
        let end = lines::find(left, b'\n');
        s = one_line(rt, &left[..end], table, strip, out, second, s)?;
        let from = lines::past(left, end);
        left = &left[from..];
    }
    Ok(())
}

// Runs the script that is read from a stream, as if a `blank` stood in front of it; of one that is
// too long only that is said.
pub fn run<R: Read>(rt: &impl Print, from: &mut R) -> io::Result<()> {
    let mut text = commands::script_room();
    let n = readlib::read_full(from, &mut text)?;
    if n == text.len() {
        return printlib::too_long(rt);
    }
    let mut table = [0u8; Layout::LARGE_SIZE];
    let mut strip = [0u8; STRIP_ROOM];
    lent::fill_strip(&mut strip);
    let mut out = [0u8; OUTPUT_ROOM];
    let mut second = [0u8; SECOND_ROOM];
    let s = blank(b"", &mut table, &mut out, &mut second).unwrap_or(usual(Layout::SMALL_SIZE));
    script(rt, &text[..n], &mut table, &strip, &mut out, &mut second, s)
}
