// Identifier text: a serial as eight upper-case hex digits, and back.
// Assumes nothing: no function asks anything.
#![tactic(auto)]

ghost use Rattle.std.specs.Prelude.{◌≡◌, ◌≤◌};
ghost use Rattle.identifier.specs.Identifier.{identifier, serial_of};
ghost use Rattle.identifier.specs.Words.{highest_digits, digits_in, characters_in, side_by_side};

// The digits of eight characters, a byte each: for each the digit that it would be.
fn digits_in(w: u64) -> u64
    ensures { (result ≡ digits_in w) × (result ≤ highest_digits) }
{
    let low = w & 0x0F0F0F0F0F0F0F0F;
    let letters = w & 0x4040404040404040;
    (low + letters / 64 * 9) & 0x0F0F0F0F0F0F0F0F
}

// The characters of eight digits, a byte each.
fn characters_in(d: u64) -> u64
    requires { d ≤ highest_digits }
    ensures { result ≡ characters_in d }
{
    let letters = (d + 0x0606060606060606) & 0x1010101010101010;
    d + 0x3030303030303030 + letters / 16 * 7
}

// Eight digits, a byte each, put side by side: two in a byte, then four in two bytes, then all.
fn side_by_side(d: u64) -> u32
    requires { d ≤ highest_digits }
    ensures { result ≡ side_by_side d }
{
    let pairs = (d + d / 16) & 0x00FF00FF00FF00FF;
    let fours = (pairs + pairs / 256) & 0x0000FFFF0000FFFF;
    (fours % 65536 + fours / 4294967296 * 65536) as u32
}

// The serial that a text names; 0, which no record has, for every text that names none.
// Its characters are looked at together, as one number of eight bytes: each is taken for the digit
// that it would be, and what those digits are written as is compared with the text, in one test.
pub fn serial_of(text: &[u8]) -> u32
    ensures { result ≡ serial_of text.now }
{
    if text.len() != 8 {
        return 0;
    }
    let word = octets::number(text);
    let digits = digits_in(word);
    if characters_in(digits) != word {
        return 0;
    }
    side_by_side(digits)
}

// The text of a serial.
pub fn text_of(serial: u32) -> [u8; 8]
    ensures { result ≡ identifier serial }
{
    let mut text = [0u8; 8];
    let mut rest = serial;
    for k in (0..text.len()).rev() {
        text[k] = hex_digits::character((rest % 16) as u8);
        rest /= 16;
    }
    text
}
