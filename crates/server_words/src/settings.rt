//! The settings that numbers and words NAME:QUOTA give.
ghost use Rattle.std.specs.Prelude.{◌≡◌, Some, Ok, IfOk, IfErr, ok_or};
ghost use Rattle.clap.specs.Walk.{texts};
ghost use Rattle.upload_book.specs.Settings.{tenants_of};
ghost use Rattle.server_words.specs.Arguments.{bounds_by};
ghost use Rattle.server_words.specs.Fault.{IsFaultOf};
ghost use Rattle.server_words.specs.Settings.{settings_given};
ghost use Rattle.server_words.specs.Tenants.{tenants_in};

use crate::fault::RunFault;
use crate::options::{TalkOptions, WorkerOptions};
use crate::tenants::tenant_of;
use std::alloc::{AllocError, Global};
use upload_book::{Bounds, Numbers, Settings, SettingsFault};

impl WorkerOptions {
    /// The bounds of the settings: wide where bodies are stored in pieces.
    pub fn bounds(&self) -> Bounds
        ensures { result ≡ bounds_by self.now.piece }
    {
        bounds_by(self.piece)
    }
}

impl<'m, 'a> TalkOptions<'m, 'a> {
    /// The bounds of the settings: wide where bodies are stored in pieces.
    pub fn bounds(&self) -> Bounds
        ensures { result ≡ bounds_by self.now.piece }
    {
        bounds_by(self.piece)
    }
}

/// The bounds of the settings where bodies are stored in pieces of this size, or gathered.
fn bounds_by(piece: Option<usize>) -> Bounds
    ensures { result ≡ bounds_by piece }
{
    match piece {
        Some(_) => Bounds::Wide,
        None => Bounds::Narrow,
    }
}

/// The settings that the numbers and the words give under these bounds, or their first fault, or `RunFault::Memory`.
pub fn settings_with(
    alloc: Global,
    bounds: Bounds,
    numbers: Numbers,
    tenants: &[&str],
) -> Result<Settings, RunFault>
    ensures settings { IfOk result (λ settings. settings_given bounds numbers (texts tenants.now) ≡ Ok settings) }
    ensures fault { IfErr result (IsFaultOf (settings_given bounds numbers (texts tenants.now))) }
{
    let tenants = tenants_of(alloc, tenants, numbers.block_size)?;
    Ok(Settings::within(bounds, numbers, tenants.as_slice())?)
}

/// The tenants that the words name. A word that is no tenant's name, `:` and a quota is refused before
/// every other fault of the settings.
fn tenants_of<'a>(
    alloc: Global,
    words: &[&'a str],
    block_size: u64,
) -> Result<Vec<(&'a [u8], u64)>, RunFault>
    ensures tenants { IfOk result (λ tenants.
        tenants_in block_size (texts words.now) ≡ Some (tenants_of tenants.items)) }
    ensures fault { IfErr result (IsFaultOf
        (ok_or (tenants_in block_size (texts words.now)) SettingsFault.TenantName)) }
{
    let mut tenants = Vec::with_capacity(alloc, words.len())?;
    for word in words {
        let tenant = tenant_of(word, block_size).ok_or(SettingsFault::TenantName)?;
        tenants.push(tenant).map_err(AllocError::from)?;
    }
    Ok(tenants)
}
