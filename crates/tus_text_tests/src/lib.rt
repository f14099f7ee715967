//! The tests of the readers of texts by their public calls, beside a plain, slow program for each definition. They
//! stand in a crate of their own so that the readers are not proved once more with them; nothing else is in it.
#![tactic(auto)]

#[cfg(test)]
mod checksums;
#[cfg(test)]
mod concats;
#[cfg(test)]
mod dates;
#[cfg(test)]
mod files;
#[cfg(test)]
mod limits;
#[cfg(test)]
mod metadata;
#[cfg(test)]
mod numbers;
#[cfg(test)]
mod paths;
#[cfg(test)]
mod plain;
#[cfg(test)]
mod rows;
#[cfg(test)]
mod tenants;
