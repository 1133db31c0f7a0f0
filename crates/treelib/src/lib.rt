// A TTLV message as text: a line for each item, indented by its depth, or the byte at which it is
// malformed. Assumes nothing. Every function is proved safe and ends; where a message is malformed
// and which bytes of a text are escaped is proved, what is printed is tested. A failed write ends
// each function with its error.
#![tactic(auto)]

ghost use Rattle.std.specs.Prelude.{◌≡◌, ◌≤◌, ◌+◌, get_or};
ghost use Rattle.treelib.specs.Malformed.{malformed_at};
ghost use Rattle.treelib.specs.Escapes.{is_upper_control, is_control};

use std::io;
use ttlv::First;

// A type stays the number that `ttlv::read_first` answers; what is printed of any is told here.

fn print_tag(rt: &impl Print, tag: u32) -> io::Result<()> {
    printlib::byte(rt, (tag / 65536 % 256) as u8)?;
    printlib::byte(rt, (tag / 256 % 256) as u8)?;
    printlib::byte(rt, (tag % 256) as u8)
}

// A type's name.
fn print_type(rt: &impl Print, kind: u8) -> io::Result<()> {
    match kind {
        ttlv_types::STRUCTURE => rt.write_all(b"Structure"),
        ttlv_types::INTEGER => rt.write_all(b"Integer"),
        ttlv_types::LONG_INTEGER => rt.write_all(b"Long Integer"),
        ttlv_types::BIG_INTEGER => rt.write_all(b"Big Integer"),
        ttlv_types::ENUMERATION => rt.write_all(b"Enumeration"),
        ttlv_types::BOOLEAN => rt.write_all(b"Boolean"),
        ttlv_types::TEXT_STRING => rt.write_all(b"Text String"),
        ttlv_types::BYTE_STRING => rt.write_all(b"Byte String"),
        ttlv_types::DATE_TIME => rt.write_all(b"Date-Time"),
        ttlv_types::INTERVAL => rt.write_all(b"Interval"),
        _ => rt.write_all(b"Date-Time Extended"),
    }
}

// Two blanks for each level above.
fn print_indent(rt: &impl Print, depth: usize) -> io::Result<()> {
    for _ in depth..ttlv::DEPTH_MOST {
        rt.write_all(b"  ")?;
    }
    Ok(())
}

// Tag in hex, type and length; `depth` levels are still allowed here.
fn print_head(rt: &impl Print, depth: usize, tag: u32, kind: u8, len: usize) -> io::Result<()> {
    print_indent(rt, depth)?;
    print_tag(rt, tag)?;
    rt.write_all(b" ")?;
    print_type(rt, kind)?;
    rt.write_all(b" ")?;
    rt.print(len)
}

// A number in two's complement; half is the first that stands for one below zero. `print_number`
// shows the bound.
fn print_signed(rt: &impl Print, bits: u64, half: u64) -> io::Result<()>
    requires { bits ≤ half + half }
{
    if bits < half {
        return rt.print(bits);
    }
    rt.write_all(b"-")?;
    rt.print(half - (bits - half))
}

// A number by its type.
fn print_number(rt: &impl Print, kind: u8, bits: u64) -> io::Result<()> {
    if kind == ttlv_types::INTEGER {
        return print_signed(rt, bits % 0x100000000, 0x80000000);
    }
    if kind == ttlv_types::ENUMERATION {
        return rt.print(bits);
    }
    if kind == ttlv_types::INTERVAL {
        return rt.print(bits);
    }
    print_signed(rt, bits, 0x8000000000000000)
}

// Whether two bytes spell one of the control characters U+0080 to U+009F.
fn is_upper_control(first: u8, second: u8) -> bool
    ensures { result ≡ is_upper_control first second }
{
    (first == 0xC2) & (0x80 <= second) & (second <= 0x9F)
}

// Whether a byte of a text is one of a control character, by itself or with the byte before it or
// behind it.
fn is_control(before: u8, b: u8, next: u8) -> bool
    ensures { result ≡ is_control before b next }
{
    (b < 0x20) | (b == 0x7F) | is_upper_control(before, b) | is_upper_control(b, next)
}

// A byte of a text: \xHH for one of a control character, a backslash twice, any other as it is.
fn print_text_byte(rt: &impl Print, before: u8, b: u8, next: u8) -> io::Result<()> {
    if is_control(before, b, next) {
        rt.write_all(b"\\x")?;
        return printlib::byte(rt, b);
    }
    if b == b'\\' {
        rt.write_all(b"\\")?;
    }
    let alone = [b];
    rt.write_all(&alone)
}

// The byte at i, or 0 past the end.
fn byte_at(v: &[u8], i: usize) -> u8
    ensures { result ≡ get_or v.now i 0 }
{
    if i < v.len() {
        return v[i];
    }
    0
}

// A text, with its control characters escaped, so that it neither forges a line of the tree nor
// drives a terminal.
fn print_text(rt: &impl Print, v: &[u8]) -> io::Result<()> {
    let mut before: u8 = 0;
    for i in 0..v.len() {
        let b = v[i];
        print_text_byte(rt, before, b, byte_at(v, i + 1))?;
        before = b;
    }
    Ok(())
}

// A value by its type: text as text, escaped, bytes in hex, numbers in decimal.
fn print_plain(rt: &impl Print, kind: u8, v: &[u8]) -> io::Result<()> {
    if kind == ttlv_types::TEXT_STRING {
        return print_text(rt, v);
    }
    if kind == ttlv_types::BYTE_STRING {
        return printlib::bytes(rt, v);
    }
    if kind == ttlv_types::BIG_INTEGER {
        return printlib::bytes(rt, v);
    }
    print_number(rt, kind, octets::number(v))
}

fn print_value(rt: &impl Print, depth: usize, tag: u32, kind: u8, v: &[u8]) -> io::Result<()> {
    print_head(rt, depth, tag, kind, v.len())?;
    rt.write_all(b": ")?;
    print_plain(rt, kind, v)?;
    rt.write_all(b"\n")
}

fn print_group(rt: &impl Print, depth: usize, tag: u32, len: usize) -> io::Result<()> {
    print_head(rt, depth, tag, ttlv_types::STRUCTURE, len)?;
    rt.write_all(b"\n")
}

// The items of s, at most `depth` deep, each on a line.
fn print_items(rt: &impl Print, s: &[u8], depth: usize) -> io::Result<()> {
    if depth == 0 {
        return Ok(());
    }
    let mut t = s;
    loop {
        match ttlv::read_first(t) {
            First::End => return Ok(()),
            First::Bad => return Ok(()),
            First::Value {
                tag,
                kind,
                len,
                next,
            } => {
                let stop = 8 + len;
                print_value(rt, depth, tag, kind, &t[8..stop])?;
                t = &t[next..];
            }
            First::Group { tag, next } => {
                print_group(rt, depth, tag, next - 8)?;
                print_items(rt, &t[8..next], depth - 1)?;
                t = &t[next..];
            }
        }
    }
}

// Where s, which is no message, is malformed: where the first malformed item starts, or where the
// only item that there may be ends.
fn malformed_at(s: &[u8]) -> usize
    ensures { result ≡ malformed_at s.now }
{
    let fault = ttlv_fault::first_fault(s, ttlv::DEPTH_MOST);
    if fault < s.len() {
        return fault;
    }
    match ttlv::read_first(s) {
        First::End => 0,
        First::Bad => 0,
        First::Value {
            tag: _,
            kind: _,
            len: _,
            next,
        } => next,
        First::Group { tag: _, next } => next,
    }
}

// Prints s as a tree of items, or where it is malformed.
pub fn show(rt: &impl Print, s: &[u8]) -> io::Result<()> {
    if ttlv::is_message(s) {
        return print_items(rt, s, ttlv::DEPTH_MOST);
    }
    rt.write_all(b"malformed at byte ")?;
    rt.print(malformed_at(s))?;
    rt.write_all(b"\n")
}
