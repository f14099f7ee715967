//! Each module tests a part, or helps those that do.

mod books;
mod changes;
mod ends;
mod holders;
mod joins;
mod payloads;
mod plain;
mod quotas;
mod restores;
mod settings;
mod steps;
mod sweeps;
mod texts;
mod uploads;
mod walks;
