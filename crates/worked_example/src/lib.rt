//! What the tests of several crates share: the numbers, the tenants and the messages of the worked example, and what
//! each of its requests tells. No program stands on it.
#![tactic(auto)]

mod messages;

pub use messages::{CREATED, HEAD, LOOKED, PATCH, PATCHED, POST};
use tus_steps::{Field, TusFields};
use upload_book::{Chunk, FirstChunk, Numbers, Payload, Settings, SettingsFault};

/// 12 blocks of 4 bytes, a lifetime of an hour, and uploads of at most 64 bytes.
pub const NUMBERS: Numbers = Numbers {
    blocks: 12,
    block_size: 4,
    lifetime: 3600,
    finished_lifetime: 0,
    max_size: 64,
    uploads: 64,
    last_id: u64::MAX - 1,
    last_total: u64::MAX,
};

/// The settings of these numbers, with acme, which has 8 blocks, and beta, which has 4.
pub fn settings() -> Result<Settings, SettingsFault> {
    settings_of(NUMBERS)
}

/// The settings of other numbers with the same tenants, or the first fault of these numbers.
pub fn settings_of(numbers: Numbers) -> Result<Settings, SettingsFault> {
    Settings::new(numbers, &[(b"acme", 8), (b"beta", 4)])
}

/// The fields of a request that tells its version and nothing else.
pub const FIELDS: TusFields<Field<'static>> = TusFields {
    version: Field::One(b"1.0.0"),
    length: Field::Absent,
    defer: Field::Absent,
    offset: Field::Absent,
    metadata: Field::Absent,
    concat: Field::Absent,
    checksum: Field::Absent,
    media: Field::Absent,
};

/// The first five bytes of an upload, as a PATCH brings them.
pub fn hello<'a>() -> Chunk<'a> {
    Chunk {
        offset: 0,
        length: None,
        typed: true,
        check: None,
        bytes: Payload::new(b"hello"),
        more: 0,
    }
}

/// What a creation without bytes brings.
pub fn no_bytes<'a>() -> FirstChunk<'a> {
    FirstChunk {
        typed: true,
        check: None,
        bytes: Payload::new(b""),
        more: 0,
    }
}
