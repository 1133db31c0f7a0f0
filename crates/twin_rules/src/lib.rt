// The soundness rules that two places break together: one serial, or one name, at both.
// It knows nothing of the other rules, writes nothing, and takes a table of any content.
#![tactic(auto)]

ghost use Rattle.std.specs.Prelude.{◌≡◌};
ghost use Rattle.table.specs.Layout.{Table};
ghost use Rattle.search.specs.Search.{find};
ghost use Rattle.twin_rules.specs.Checked.{is_at, Owns, own_name};

use names::Name;

// A table's bytes and its place count stay two parameters, as in `table`.

// Rule 5: the search for the serial of place i gives place i. A serial above all that stand at
// lower places needs no search: `top` is as high as any of them. The check has tested the table's
// size and counts its places.
pub fn own_place(t: &[u8], n: usize, i: usize, top: u32, serial: u32) -> bool
    requires { Owns n t.now i top serial }
    ensures { result ≡ is_at i (find n t.now serial) }
{
    if top < serial {
        return true;
    }
    search::find(t, n, serial) == Some(i)
}

// Rule 22: the search for the name of place i gives place i; where there is no name, none is made.
// The check has tested the table's size.
pub fn own_name(t: &[u8], n: usize, i: usize, name: Name) -> bool
    requires { Table n t.now }
    ensures { result ≡ own_name n t.now i name }
{
    if name.len == 0 {
        return true;
    }
    name_search::find_name(t, n, name) == Some(i)
}
