//! The store of the tests, and what its requests tell at the least.
use std::process::Abort;
use upload_book::{Numbers, Settings};
pub(crate) use worked_example::FIELDS;

pub(crate) const NUMBERS: Numbers = Numbers {
    blocks: 64,
    ..worked_example::NUMBERS
};

/// The settings of acme with all blocks.
pub(crate) fn settings(rt: &impl Abort) -> Settings {
    let Ok(settings) = Settings::new(NUMBERS, &[(b"acme", 64)]) else {
        panic!(rt; "no settings");
    };
    settings
}
