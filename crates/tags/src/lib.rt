// The tags, each once: readers and writers use these. And whether a number is a tag at all.
// Assumes nothing: any number gets an answer.
#![tactic(auto)]

ghost use Rattle.std.specs.Prelude.{◌≡◌};
ghost use Rattle.tags.specs.Tags.{tag_ok};

// The first byte of every tag.
pub const LEAD: u8 = 0x42;

// The tags of KMIP 2.1 that a request or a response has here, by number.
pub const ACTIVATION_DATE: u32 = 0x420001;

pub const BATCH_COUNT: u32 = 0x42000D;

pub const BATCH_ERROR_CONTINUATION_OPTION: u32 = 0x42000E;

pub const BATCH_ITEM: u32 = 0x42000F;

pub const CRYPTOGRAPHIC_ALGORITHM: u32 = 0x420028;

pub const CRYPTOGRAPHIC_LENGTH: u32 = 0x42002A;

pub const CRYPTOGRAPHIC_USAGE_MASK: u32 = 0x42002C;

pub const DEACTIVATION_DATE: u32 = 0x42002F;

pub const KEY_BLOCK: u32 = 0x420040;

pub const KEY_FORMAT_TYPE: u32 = 0x420042;

pub const KEY_MATERIAL: u32 = 0x420043;

pub const KEY_VALUE: u32 = 0x420045;

pub const LINK: u32 = 0x42004A;

pub const LINK_TYPE: u32 = 0x42004B;

pub const LINKED_OBJECT_IDENTIFIER: u32 = 0x42004C;

pub const NAME: u32 = 0x420053;

pub const NAME_TYPE: u32 = 0x420054;

pub const NAME_VALUE: u32 = 0x420055;

pub const OBJECT_TYPE: u32 = 0x420057;

pub const OFFSET: u32 = 0x420058;

pub const OPERATION: u32 = 0x42005C;

pub const PROTOCOL_VERSION: u32 = 0x420069;

pub const PROTOCOL_VERSION_MAJOR: u32 = 0x42006A;

pub const PROTOCOL_VERSION_MINOR: u32 = 0x42006B;

pub const REQUEST_HEADER: u32 = 0x420077;

pub const REQUEST_MESSAGE: u32 = 0x420078;

pub const REQUEST_PAYLOAD: u32 = 0x420079;

pub const RESPONSE_HEADER: u32 = 0x42007A;

pub const RESPONSE_MESSAGE: u32 = 0x42007B;

pub const RESPONSE_PAYLOAD: u32 = 0x42007C;

pub const RESULT_REASON: u32 = 0x42007E;

pub const RESULT_STATUS: u32 = 0x42007F;

pub const REVOCATION_REASON: u32 = 0x420081;

pub const REVOCATION_REASON_CODE: u32 = 0x420082;

pub const STATE: u32 = 0x42008D;

pub const SYMMETRIC_KEY: u32 = 0x42008F;

pub const TIME_STAMP: u32 = 0x420092;

pub const UNIQUE_BATCH_ITEM_ID: u32 = 0x420093;

pub const UNIQUE_IDENTIFIER: u32 = 0x420094;

pub const USAGE_LIMITS: u32 = 0x420095;

pub const USAGE_LIMITS_COUNT: u32 = 0x420096;

pub const USAGE_LIMITS_TOTAL: u32 = 0x420097;

pub const USAGE_LIMITS_UNIT: u32 = 0x420098;

pub const ATTRIBUTES: u32 = 0x420125;

// Whether a number is a tag: three bytes, of which the first is 42 hex. An item with any other
// would not read back.
pub fn tag_ok(tag: u32) -> bool
    ensures { result ≡ tag_ok tag }
{
    tag / 65536 == LEAD as u32
}
