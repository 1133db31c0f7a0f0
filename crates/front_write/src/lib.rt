// The writer of what stands in front of the answers: the head of the message, the header. What a
// function asks is shown by its callers here; what `write_front` asks, by the writer of the whole
// response.
#![tactic(auto)]

ghost use Rattle.std.specs.Prelude.{◌≡◌, ◌+◌, ◌*◌, ◌%◌, ◌≤◌, length};
ghost use Rattle.octets.specs.Octets.{over};
ghost use Rattle.ttlv_types.specs.Types.{integer};
ghost use Rattle.ttlv.specs.Items.{nil, group};
ghost use Rattle.tags.specs.Tags.{protocol_version_major, protocol_version_minor, response_header};
ghost use Rattle.frame.specs.Frame.{batch_most};
ghost use Rattle.answer.specs.Respond.{word, version_items, header_items};
ghost use Rattle.answer.specs.Front.{header_size, frame_size, longest_item, front};
ghost use Rattle.named_write.specs.Puts.{Puts};

use ttlv_numbers::{DateTime, Integer};

// The header of a response: its head, version, Time Stamp, Batch Count.
const HEADER_SIZE: usize = 80;

// The body of Protocol Version.
fn write_version_body(out: &mut [u8]) -> usize
    requires { 32 ≤ length out.old }
    ensures { Puts 32 (word protocol_version_major integer 2 (word protocol_version_minor integer 1 nil)) out.old out.new result }
{
    ttlv_numbers::write_number(out, tags::PROTOCOL_VERSION_MAJOR, Integer(2));
    ttlv_numbers::write_number(&mut out[16..], tags::PROTOCOL_VERSION_MINOR, Integer(1));
    32
}

// Protocol Version.
fn write_version(out: &mut [u8]) -> usize
    requires { 40 ≤ length out.old }
    ensures { Puts 40 (version_items nil) out.old out.new result }
{
    ttlv_around::write_around(out, tags::PROTOCOL_VERSION, write_version_body)
}

// The items of the header.
fn write_header_items(out: &mut [u8], clock: u64, count: u32) -> usize
    requires { 72 ≤ length out.old }
    ensures { Puts 72 (header_items clock count) out.old out.new result }
{
    let n = write_version(out);
    ttlv_numbers::write_number(&mut out[n..], tags::TIME_STAMP, DateTime(clock));
    let at = n + 16;
    ttlv_numbers::write_number(&mut out[at..], tags::BATCH_COUNT, Integer(count));
    at + 16
}

// The header.
fn write_header(out: &mut [u8], clock: u64, count: u32) -> usize
    requires { header_size ≤ length out.old }
    ensures { Puts header_size (group response_header (header_items clock count) nil) out.old out.new result }
{
    ttlv_around::write_around(
        out,
        tags::RESPONSE_HEADER,
        |room| write_header_items(room, clock, count),
    )
}

// What stands in front of n bytes of batch items, which are a length of items.
pub fn write_front(out: &mut [u8], clock: u64, count: u32, n: usize)
    requires { (frame_size ≤ length out.old) × (n ≤ batch_most * longest_item) × (n % 8 ≡ 0) }
    ensures { out.new ≡ over (front clock count n) out.old }
{
    ttlv_put::write_structure(out, tags::RESPONSE_MESSAGE, HEADER_SIZE + n);
    write_header(&mut out[8..], clock, count);
}
