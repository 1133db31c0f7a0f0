// Locate: the record with a name, if there is one. It touches neither table nor output. It asks for a
// table of so many places; `act` shows it.
#![tactic(auto)]

ghost use Rattle.std.specs.Prelude.{◌≡◌};
ghost use Rattle.table.specs.Layout.{Table};
ghost use Rattle.name_search.specs.Names.{find_name};
ghost use Rattle.plans.specs.Plans.{serial_found};
ghost use Rattle.locate.specs.Locate.{locating};

use names::Name;
use plans::{Outcome, Performed};

// A table's bytes and its place count stay two parameters, as in `table`.

// The serial of the record with this name, 0 where there is none.
fn serial_named(t: &[u8], n: usize, name: Name) -> u32
    requires { Table n t.now }
    ensures { result ≡ serial_found t.now (find_name n t.now name) }
{
    name_search::find_name(t, n, name).map_or(0, |i| table::serial_at(t, i))
}

// Locate: what is found is answered and becomes the placeholder; where nothing is, it is emptied.
pub fn locate(t: &[u8], n: usize, name: Name) -> Performed
    requires { Table n t.now }
    ensures { result ≡ locating n t.now name }
{
    let serial = serial_named(t, n, name);
    Performed {
        outcome: Outcome::Located { serial },
        holder: serial,
    }
}
