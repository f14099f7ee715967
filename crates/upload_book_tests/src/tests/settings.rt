//! Moments, settings and words.

use crate::tests::books::numbers;
use std::alloc::Global;
use std::process::Abort;
use std::test::Fail;
use upload_book::{Bounds, Moment, Numbers, Refusal, Settings, SettingsFault};
use worked_example::NUMBERS;

// The seconds of the moment at this second, where there is one.
fn secs(at: u64) -> Option<u64> {
    let moment = Moment::new(at)?;
    Some(moment.secs())
}

#[test]
fn moments(rt: HostRuntime) {
    assert!(rt; secs(0) == Some(0));
    assert!(rt; secs(253_402_300_799) == Some(253_402_300_799));
    assert!(rt; secs(253_402_300_800).is_none());
}

/// A table of numbers, each `name: value, .. => fault;`, the others being those of a usual book.
macro_rules! faults {
    ($($($name:ident: $value:expr),* => $fault:ident;)*) => {
        [$((
            numbers!($($name: $value),*),
            SettingsFault::$fault,
        )),*]
    };
}

// What is out of range, and where two numbers are, the first of them.
static FAULTS_OF_NUMBERS: [(Numbers, SettingsFault); 10] = faults! {
    blocks: 0 => Blocks;
    blocks: 1_048_577, block_size: 0 => Blocks;
    block_size: 65_537, lifetime: 0 => BlockSize;
    blocks: 1_048_576, block_size: 1025 => PoolBytes;
    lifetime: 31_536_001 => Lifetime;
    finished_lifetime: 31_536_001, max_size: 0 => FinishedLifetime;
    max_size: 16_777_217 => MaxSize;
    uploads: 65 => Uploads;
    last_id: 0 => LastId;
    last_id: u64::MAX => LastId;
};

// The fault of settings of these numbers and tenants.
fn fault_of(numbers: Numbers, tenants: &[(&[u8], u64)]) -> Option<SettingsFault> {
    Settings::new(numbers, tenants).err()
}

// Asserts that settings of these numbers and tenants have this fault, or none.
fn assert_fault(
    rt: &impl Abort,
    numbers: Numbers,
    tenants: &[(&[u8], u64)],
    fault: Option<SettingsFault>,
    place: usize,
) {
    assert!(rt; fault_of(numbers, tenants) == fault, "row {place}");
}

#[test]
fn faults_of_numbers(rt: HostRuntime) {
    for (place, (numbers, fault)) in FAULTS_OF_NUMBERS.iter().enumerate() {
        assert_fault(&rt, *numbers, &[], Some(*fault), place);
    }
}

const GREATEST: Numbers = Numbers {
    blocks: 1_048_576,
    block_size: 1_024,
    lifetime: 31_536_000,
    finished_lifetime: 31_536_000,
    max_size: 16_777_216,
    uploads: 64,
    last_id: 18_446_744_073_709_551_614,
    last_total: 18_446_744_073_709_551_615,
};

// As many blocks as there may be, blocks as large as they may be, and each number at its least.
static ACCEPTED: [Numbers; 3] = [
    GREATEST,
    Numbers {
        blocks: 16_384,
        block_size: 65_536,
        ..GREATEST
    },
    Numbers {
        blocks: 1,
        block_size: 1,
        lifetime: 1,
        finished_lifetime: 0,
        max_size: 1,
        uploads: 1,
        last_id: 1,
        last_total: 0,
    },
];

// Blocks, bytes of a block and the greatest size of an upload, and the fault of settings with them under the wide bounds.
static WIDE: [(u64, u64, u64, Option<SettingsFault>); 9] = [
    (1_048_577, 65_537, 16_777_217, None),
    (4_294_967_295, 4_096, 1_099_511_627_776, None),
    (16_777_216, 1_048_576, 1, None),
    (0, 1, 1, Some(SettingsFault::Blocks)),
    (4_294_967_296, 1, 1, Some(SettingsFault::Blocks)),
    (1, 1_048_577, 1, Some(SettingsFault::BlockSize)),
    (16_777_217, 1_048_576, 1, Some(SettingsFault::PoolBytes)),
    (1_048_576, 1, 0, Some(SettingsFault::MaxSize)),
    (
        1_048_576,
        1,
        1_099_511_627_777,
        Some(SettingsFault::MaxSize),
    ),
];

#[test]
fn settings_under_the_wide_bounds(rt: HostRuntime) {
    for (place, (blocks, block_size, max_size, fault)) in WIDE.iter().enumerate() {
        let numbers = Numbers {
            blocks: *blocks,
            block_size: *block_size,
            max_size: *max_size,
            ..GREATEST
        };
        let found = Settings::within(Bounds::Wide, numbers, &SIXTEEN).err();
        assert!(&rt; found == *fault, "row {place}");
    }
}

// How many uploads a tenant may have, and the fault of settings with them under the wide bounds.
static WIDE_UPLOADS: [(u64, Option<SettingsFault>); 4] = [
    (65, None),
    (65_536, None),
    (65_537, Some(SettingsFault::Uploads)),
    (0, Some(SettingsFault::Uploads)),
];

#[test]
fn uploads_under_the_wide_bounds(rt: HostRuntime) {
    for (place, (uploads, fault)) in WIDE_UPLOADS.iter().enumerate() {
        let numbers = Numbers {
            uploads: *uploads,
            ..GREATEST
        };
        let found = Settings::within(Bounds::Wide, numbers, &SIXTEEN).err();
        assert!(&rt; found == *fault, "row {place}");
    }
}

static SIXTEEN: [(&[u8], u64); 16] = [
    (b"00000000000000000000000000000000", 0),
    (b"1", 0),
    (b"2", 0),
    (b"3", 0),
    (b"4", 0),
    (b"5", 0),
    (b"6", 0),
    (b"7", 0),
    (b"8", 0),
    (b"9", 0),
    (b"a", 0),
    (b"b", 0),
    (b"c", 0),
    (b"d", 0),
    (b"e", 0),
    (b"f-zzzzzzzzzzzzzzzzzzzzzzzzzzzzzz", 1),
];

// Each number at its greatest is accepted, and so are sixteen tenants with names of 32 bytes.
#[test]
fn greatest_settings(rt: HostRuntime) {
    for (place, numbers) in ACCEPTED.iter().enumerate() {
        assert_fault(&rt, *numbers, &SIXTEEN, None, place);
    }
}

// One tenant more than there may be, of a name that is none.
const ACMES: [(&[u8], u64); 17] = [(b"Acme", 1); 17];

// Tenants, and their fault.
type Row = (&'static [(&'static [u8], u64)], Option<SettingsFault>);

static FAULTS_OF_TENANTS: [Row; 8] = [
    (
        &[(b"000000000000000000000000000000000", 1)],
        Some(SettingsFault::TenantName),
    ),
    (&[], Some(SettingsFault::TenantCount)),
    (&ACMES, Some(SettingsFault::TenantCount)),
    (&[(b"", 1)], Some(SettingsFault::TenantName)),
    (
        &[(b"acme", 8), (b"beta", 8), (b"acme", 0)],
        Some(SettingsFault::TenantTwice),
    ),
    (&[(b"acme", 8), (b"beta", 5)], Some(SettingsFault::Quota)),
    (
        &[(b"acme", u64::MAX), (b"beta", u64::MAX)],
        Some(SettingsFault::Quota),
    ),
    (&[(b"acme", 8), (b"beta", 4)], None),
];

#[test]
fn faults_of_tenants(rt: HostRuntime) {
    for (place, (tenants, fault)) in FAULTS_OF_TENANTS.iter().enumerate() {
        assert_fault(&rt, NUMBERS, tenants, *fault, place);
    }
    assert!(rt; fault_of(NUMBERS, &ACMES[..16]) == Some(SettingsFault::TenantName));
}

// Asserts that settings of acme and beta tell their numbers and tenants.
fn assert_tells(rt: &impl Abort, settings: &Settings) {
    assert!(rt; *settings.numbers() == NUMBERS);
    assert!(rt; settings.tenant_count() == 2);
    assert!(rt; settings.tenant(b"gamma").is_none());
    let beta = settings.tenant(b"beta").expect(rt, "beta");
    assert!(rt; beta == 1);
    assert!(rt; settings.tenant_name(beta).as_slice() == b"beta".as_slice());
}

#[test]
fn settings_tell_their_tenants(rt: HostRuntime) -> Result<(), Fail> {
    let settings = Settings::new(NUMBERS, &[(b"acme", 8), (b"beta", 4)])?;
    assert_tells(&rt, &settings);
    Ok(())
}

// Asserts that a refusal displays this word.
fn assert_refusal_word(rt: &impl Abort, alloc: Global, refusal: Refusal, word: &str) {
    let shown = format!(in alloc; "{refusal}").expect(rt, "memory");
    assert!(rt; shown.as_str() == word);
}

// Asserts that a fault displays this word.
fn assert_fault_word(rt: &impl Abort, alloc: Global, fault: SettingsFault, word: &str) {
    let shown = format!(in alloc; "{fault}").expect(rt, "memory");
    assert!(rt; shown.as_str() == word);
}

#[test]
fn words(rt: HostRuntime) {
    assert_refusal_word(&rt, rt.alloc(), Refusal::TooLong, "too-long");
    assert_fault_word(&rt, rt.alloc(), SettingsFault::PoolBytes, "pool-bytes");
}
