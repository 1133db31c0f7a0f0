// What programs print: bytes as upper-case hex, what came of a call, and lines of scripts.
// Assumes nothing. What is printed is tested and not proved. A failed write ends each function
// with its error.
#![tactic(auto)]

use std::io;

// A byte as two hex digits.
pub fn byte(rt: &impl Print, b: u8) -> io::Result<()> {
    let pair = hex_digits::pair_of(b);
    rt.write_all(&pair)
}

// Bytes as hex without blanks.
pub fn bytes(rt: &impl Print, s: &[u8]) -> io::Result<()> {
    for b in s {
        byte(rt, *b)?;
    }
    Ok(())
}

// Bytes as hex without blanks, to the end of a line.
pub fn line(rt: &impl Print, s: &[u8]) -> io::Result<()> {
    bytes(rt, s)?;
    rt.write_all(b"\n")
}

// The response at the front of the output, or the number of the refusal. That a response fits is
// the engine's promise; here it is tested, so that nothing has to be asked.
pub fn answer(rt: &impl Print, out: &[u8], number: u32, len: usize) -> io::Result<()> {
    if number != 0 {
        rt.write_all(b"refusal ")?;
        rt.print(number)?;
        return rt.write_all(b"\n");
    }
    if out.len() < len {
        return rt.write_all(b"longer than the output\n");
    }
    line(rt, &out[..len])
}

// The name of a card, before what came of it.
pub fn name(rt: &impl Print, s: &[u8]) -> io::Result<()> {
    rt.write_all(s)?;
    rt.write_all(b": ")
}

// A line that is none of a script.
pub fn bad_line(rt: &impl Print, s: &[u8]) -> io::Result<()> {
    rt.write_all(b"bad line: ")?;
    rt.write_all(s)?;
    rt.write_all(b"\n")
}

// Of a script that is longer than what a program holds, only that is said.
pub fn too_long(rt: &impl Print) -> io::Result<()> {
    rt.write_all(b"script too long\n")
}
