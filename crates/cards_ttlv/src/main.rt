// Runs TTLV cards: lines `name: hex` from standard input. A line for each says whether the bytes
// read as one message and, if they do, whether they are written again the same; a line that is no
// card is printed as a bad one. Empty lines and comments say nothing. Assumes nothing; every
// function is proved safe and ends. The first cards are the examples of KMIP 1.x, section 9.1.2,
// which 2.1 does not print; the rest follow from 01's rules. A failed read or write ends it with the
// error.
#![tactic(auto)]

use std::io;

// The most bytes that a card has.
const CARD_MOST: usize = 512;

// What is said of some bytes. The room is full of ones beforehand, so that what is not written
// shows.
fn verdict(rt: &impl Print, s: &[u8]) -> io::Result<()> {
    if !ttlv::is_message(s) {
        return rt.write_all(b"malformed\n");
    }
    let mut out = [255u8; CARD_MOST];
    let n = rewrite::rewrite(&mut out, s);
    if lines::same(&out[..n], s) {
        rt.write_all(b"read, same\n")
    } else {
        rt.write_all(b"read, not same\n")
    }
}

// A card carried out: whether the line is one.
fn card(rt: &impl Print, line: &[u8]) -> io::Result<bool> {
    let stop = lines::name_end(line);
    if stop == line.len() {
        return Ok(false);
    }
    let from = lines::past(line, stop);
    let mut bytes = [0u8; CARD_MOST];
    let Some(n) = hex_text::bytes_in(&line[from..], &mut bytes) else {
        return Ok(false);
    };
    printlib::name(rt, &line[..stop])?;
    verdict(rt, &bytes[..n])?;
    Ok(true)
}

// One line.
fn one_line(rt: &impl Print, line: &[u8]) -> io::Result<()> {
    if lines::is_silent(line) {
        return Ok(());
    }
    if !card(rt, line)? {
        printlib::bad_line(rt, line)?;
    }
    Ok(())
}

// All lines of a text.
fn cards(rt: &impl Print, text: &[u8]) -> io::Result<()> {
    for line in text.split(|b| *b == b'\n') {
        one_line(rt, line)?;
    }
    Ok(())
}

fn main(rt: HostRuntime) -> io::Result<()> {
    let mut text = [0u8; readlib::LARGE];
    let n = readlib::read_full(&mut rt.stdin(), &mut text)?;
    if n == text.len() {
        return printlib::too_long(&rt);
    }
    cards(&rt, &text[..n])
}
