// Bytes as text in lines: where a byte or the end of a name stands, and whether two runs are the
// same. For programs that read scripts. Assumes nothing: no function asks anything of its bytes.
#![tactic(auto)]

ghost use Rattle.std.specs.Prelude.{◌≡◌, ◌+◌, ◌≤◌, ◌==◌, min, length, position};
ghost use Rattle.octets.specs.Octets.{same};
ghost use Rattle.lines.specs.Lines.{place_of, name_end, is_silent};

// Where b stands first in s, if it does.
fn place(s: &[u8], b: u8) -> Option<usize>
    ensures { result ≡ position (λ x. x == b) s.now }
{
    s.iter().position(|x| *x == b)
}

// Where b stands first in s; the length of s where it stands nowhere.
pub fn find(s: &[u8], b: u8) -> usize
    ensures { (result ≡ place_of b s.now) × (result ≤ length s.now) }
{
    place(s, b).unwrap_or(s.len())
}

// The place after `at`, or the end of s.
pub fn past(s: &[u8], at: usize) -> usize
    ensures { result ≡ min (at + 1) (length s.now) }
{
    if at < s.len() { at + 1 } else { s.len() }
}

// Where the colon and the blank that end a name stand first in s; the length of s where they stand
// nowhere.
pub fn name_end(s: &[u8]) -> usize
    ensures { (result ≡ name_end s.now) × (result ≤ length s.now) }
{
    for i in 1..s.len() {
        if (s[i - 1] == b':') & (s[i] == b' ') {
            return i - 1;
        }
    }
    s.len()
}

// Whether a line says nothing: an empty one, or a comment.
pub fn is_silent(line: &[u8]) -> bool
    ensures { result ≡ is_silent line.now }
{
    line.is_empty() || line[0] == b'#'
}

// Whether a and b are the same bytes.
pub fn same(a: &[u8], b: &[u8]) -> bool
    ensures { result ≡ same a.now b.now }
{
    a == b
}
