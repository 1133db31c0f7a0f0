// The message frame of a request: its header, how many batch items follow, and refusals 6 to 9.
// It knows TTLV by its items alone, and nothing of keys.
#![tactic(auto)]

ghost use Rattle.std.specs.Prelude.{◌≡◌, true, option_map};
ghost use Rattle.octets.specs.Maybe.{is_some};
ghost use Rattle.ttlv.specs.Parse.{message};
ghost use Rattle.ttlv.specs.Tree.{tree_of};
ghost use Rattle.runs.specs.Runs.{behind};
ghost use Rattle.frame.specs.Frame.{version_in, header_in, frame_in, is_version, is_count, option_ok};
ghost use Rattle.frame.specs.Readers.{option_in, header_read, items_at, frame_read, framing_told, framing_of};

use refusal::Refusal;
use runs::Run;

// An option stays a number: it is read as any and tested here (`option_ok`).

// The version that is taken.
const MAJOR: u64 = 2;

const MINOR: u64 = 1;

// The options. Stop holds where none is given.
const CONTINUE: u64 = 1;

const STOP: u64 = 2;

const UNDO: u64 = 3;

// The most batch items that a request may have.
const BATCH_MOST: u64 = 16;

// A request that is taken as a frame: its option, and where the batch items start.
#[derive(Clone, Copy)]
pub struct Batch {
    pub option: u32,
    pub items: usize,
}

// The numbers of a Request Header; the option is Stop where none is given.
#[derive(Clone, Copy)]
struct HeaderParts {
    major: u64,
    minor: u64,
    option: u64,
    count: u64,
}

// The header's numbers, how many batch items follow and where they start.
#[derive(Clone, Copy)]
struct FrameParts {
    major: u64,
    minor: u64,
    option: u64,
    count: u64,
    found: usize,
    items: usize,
}

// The items of a Protocol Version: Major and Minor.
fn read_version(run: Run<'_>) -> Option<(u64, u64)>
    ensures { result ≡ version_in (tree_of run.entry.bytes.now) }
{
    let (major, rest) = run.number(tags::PROTOCOL_VERSION_MAJOR, ttlv_types::INTEGER)?;
    let (minor, rest) = rest.number(tags::PROTOCOL_VERSION_MINOR, ttlv_types::INTEGER)?;
    rest.end()?;
    Some((major, minor))
}

// The option at the front, if it is given, and the run behind it. It is read once, and only where
// none was read is it asked whether a bad one stands there.
fn read_option<'a>(run: Run<'a>) -> Option<(Option<u64>, Run<'a>)>
    ensures { option_map behind result ≡ option_in (tree_of run.entry.bytes.now) }
{
    let Some((option, rest)) = run.number(
        tags::BATCH_ERROR_CONTINUATION_OPTION,
        ttlv_types::ENUMERATION,
    ) else {
        if run.starts_with(tags::BATCH_ERROR_CONTINUATION_OPTION) {
            return None;
        }
        return Some((None, run));
    };
    Some((Some(option), rest))
}

// The items of a Request Header.
fn read_header(run: Run<'_>) -> Option<HeaderParts>
    ensures { result ≡ header_read (header_in (tree_of run.entry.bytes.now)) }
{
    let (version, rest) = run.body(tags::PROTOCOL_VERSION)?;
    let (major, minor) = read_version(version)?;
    let (option, rest) = read_option(rest)?;
    let (count, rest) = rest.number(tags::BATCH_COUNT, ttlv_types::INTEGER)?;
    rest.end()?;
    let option = option.unwrap_or(STOP);
    Some(HeaderParts {
        major,
        minor,
        option,
        count,
    })
}

// The items of a Request Message, all of them looked at. `read_frame` is given one item by the
// rules.
fn find_frame(request: &[u8]) -> Option<FrameParts>
    requires { is_some (message request.now) ≡ true }
    ensures { result ≡ frame_read (frame_in (tree_of request.now)) (items_at request.now) }
{
    let _end = fields::body_field(request, tags::REQUEST_MESSAGE)?;
    let s = &request[8..];
    let next = fields::body_field(s, tags::REQUEST_HEADER)?;
    let HeaderParts {
        major,
        minor,
        option,
        count,
    } = read_header(Run { bytes: &s[8..next] })?;
    let batch = Run { bytes: &s[next..] };
    if batch.is_empty() {
        return None;
    }
    let found = batch_item::count_items(batch)?;
    Some(FrameParts {
        major,
        minor,
        option,
        count,
        found,
        items: 8 + next,
    })
}

// Whether the version is the one that is taken.
fn version_ok(major: u64, minor: u64) -> bool
    ensures { result ≡ is_version major minor }
{
    major == MAJOR && minor == MINOR
}

// Whether the Batch Count is allowed and is the number of items.
fn count_ok(count: u64, found: usize) -> bool
    ensures { result ≡ is_count count found }
{
    1 <= count && count <= BATCH_MOST && count == found as u64
}

// Whether the option is one that there is.
fn option_ok(option: u64) -> bool
    ensures { result ≡ option_ok option }
{
    option == CONTINUE || option == STOP || option == UNDO
}

// A request as a frame, or the lowest of refusals 6 to 9 that applies. The engine's TTLV check shows
// that it is one item by the rules.
pub fn read_frame(request: &[u8]) -> Result<Batch, Refusal>
    requires { is_some (message request.now) ≡ true }
    ensures { framing_told result ≡ framing_of request.now }
{
    let parts = find_frame(request).ok_or(Refusal::Frame)?;
    if !version_ok(parts.major, parts.minor) {
        return Err(Refusal::Version);
    }
    if !count_ok(parts.count, parts.found) {
        return Err(Refusal::Count);
    }
    if !option_ok(parts.option) {
        return Err(Refusal::Continuation);
    }
    Ok(Batch {
        option: parts.option as u32,
        items: parts.items,
    })
}
