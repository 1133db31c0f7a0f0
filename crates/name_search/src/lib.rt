// The search of the stored table for a record by its name.
// It knows nothing of TTLV and nothing of what may happen to a key.
#![tactic(auto)]

ghost use Rattle.std.specs.Prelude.{◌≡◌};
ghost use Rattle.table.specs.Layout.{Table, Place};
ghost use Rattle.search.specs.Search.{first};
ghost use Rattle.name_search.specs.Names.{has_name, find_name, is_taken};

use names::Name;

// A table's bytes and its place count stay two parameters, as in `table`.

// Whether place i has this name. Most other names differ in their first bytes, so those are looked at
// first. The caller shows that i is a place.
fn has_name(t: &[u8], n: usize, i: usize, name: Name) -> bool
    requires { Place n t.now i }
    ensures { result ≡ has_name n t.now name i }
{
    let words = name.words;
    if table::name_start(t, n, i) != words.a {
        return false;
    }
    names::same_name(table::name_at(t, n, i), name)
}

// The lowest place that has this name.
fn place_named(t: &[u8], n: usize, name: Name) -> Option<usize>
    requires { Table n t.now }
    ensures { result ≡ first n (has_name n t.now name) }
{
    search::first_place(n, |i| has_name(t, n, i, name))
}

// The place of the record with this name; no name is no record's.
pub fn find_name(t: &[u8], n: usize, name: Name) -> Option<usize>
    requires { Table n t.now }
    ensures { result ≡ find_name n t.now name }
{
    if name.len == 0 {
        return None;
    }
    place_named(t, n, name)
}

// Whether a record has this name.
pub fn is_taken(t: &[u8], n: usize, name: Name) -> bool
    requires { Table n t.now }
    ensures { result ≡ is_taken n t.now name }
{
    find_name(t, n, name).is_some()
}
