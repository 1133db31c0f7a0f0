// A Name read from items: the name of a new key, if Create gives one, and the name that Locate asks
// for. It knows TTLV by its items alone.
#![tactic(auto)]

ghost use Rattle.std.specs.Prelude.{◌≡◌};
ghost use Rattle.ttlv.specs.Tree.{tree_of};
ghost use Rattle.name_read.specs.Name.{name_body, only_name_in, last_name_in};

use names::Name;
use runs::Run;

// The one Name Type: uninterpreted text.
const UNINTERPRETED_TEXT: u64 = 1;

// The items of Name.
fn read_body(run: Run<'_>) -> Option<Name>
    ensures { result ≡ name_body (tree_of run.entry.bytes.now) }
{
    let (text, rest) = run.bytes(tags::NAME_VALUE, ttlv_types::TEXT_STRING)?;
    if !names::name_ok(text) {
        return None;
    }
    let (kind, rest) = rest.number(tags::NAME_TYPE, ttlv_types::ENUMERATION)?;
    if kind != UNINTERPRETED_TEXT {
        return None;
    }
    rest.end()?;
    Some(names::name_of(text))
}

// A Name, with nothing behind it.
pub fn read_only_name(run: Run<'_>) -> Option<Name>
    ensures { result ≡ only_name_in (tree_of run.entry.bytes.now) }
{
    let (body, rest) = run.body(tags::NAME)?;
    let name = read_body(body)?;
    rest.end()?;
    Some(name)
}

// A Name, if one is given, with nothing behind it; no name where nothing is left.
pub fn read_last_name(run: Run<'_>) -> Option<Name>
    ensures { result ≡ last_name_in (tree_of run.entry.bytes.now) }
{
    if run.is_empty() {
        return Some(names::no_name());
    }
    read_only_name(run)
}
