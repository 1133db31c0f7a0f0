// Hex digits: a digit and its character, 0 to 9 and then A to F.
// Assumes nothing. The one `requires`, of a digit's character, is shown by its callers.
#![tactic(auto)]

ghost use Rattle.std.specs.Prelude.{◌≡◌, ◌<◌};
ghost use Rattle.hex_digits.specs.Hex.{digit, value_of, pair_of};

// The digit of a character, if it is one.
pub fn value_of(c: u8) -> Option<u8>
    ensures { result ≡ value_of c }
{
    if 0x30 <= c && c <= 0x39 {
        return Some(c - 0x30);
    }
    if 0x41 <= c && c <= 0x46 {
        return Some(c - 0x37);
    }
    None
}

// The character of a digit.
pub fn character(d: u8) -> u8
    requires { d < 16 }
    ensures { result ≡ digit d }
{
    if d < 10 {
        return 0x30 + d;
    }
    0x37 + d
}

// A byte as two characters.
pub fn pair_of(b: u8) -> [u8; 2]
    ensures { result ≡ pair_of b }
{
    [character(b / 16), character(b % 16)]
}
