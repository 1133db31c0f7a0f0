// Bytes written as hex, in the lines of a script. Assumes nothing: any bytes are read, and what is no
// such text is told.
#![tactic(auto)]

ghost use Rattle.std.specs.Prelude.{◌≡◌, ◌<◌, length, drop};
ghost use Rattle.hex_text.specs.Bytes.{byte_of, first_byte, BytesRead};

// The byte that two digits spell, if they are digits.
fn byte_of(high: u8, low: u8) -> Option<u8>
    ensures { result ≡ byte_of high low }
{
    let h = hex_digits::value_of(high)?;
    let l = hex_digits::value_of(low)?;
    Some(16 * h + l)
}

// The byte that the two characters from i on spell, if they do. `bytes_in` shows that there is one.
fn pair_at(s: &[u8], i: usize) -> Option<u8>
    requires { i < length s.now }
    ensures { result ≡ first_byte (drop i s.now) }
{
    if s.len() - i < 2 {
        return None;
    }
    byte_of(s[i], s[i + 1])
}

// Bytes as pairs of upper-case hex digits, with blanks between them where one likes, over the front
// of out: how many they are. Where s is no such text, or has more bytes than out, out has the bytes
// in front of that. A blank is one character and a byte two, so no `for` counts them.
pub fn bytes_in(s: &[u8], out: &mut [u8]) -> Option<usize>
    ensures { BytesRead s.now out.old result out.new }
{
    let mut n: usize = 0;
    let mut i: usize = 0;
    while i < s.len() {
        if s[i] == b' ' {
            i += 1;
        } else {
            let b = pair_at(s, i)?;
            if out.len() <= n {
                return None;
            }
            out[n] = b;
            n += 1;
            i += 2;
        }
    }
    Some(n)
}
