//! The tests of quotas and of texts of settings by their public calls. They stand in a crate of their own so that the crate is
//! not proved once more with them; nothing else is in it.
#![tactic(auto)]

#[cfg(test)]
mod quotas;
#[cfg(test)]
mod settings_texts;
