//! The settings beside a journal: what is asked of them before it is opened, and what is put once it was.
ghost use Rattle.std.specs.Prelude.{◌≡◌, ◌≢◌, [], false, Some, None, IfErr, IfOk, IfSome, IsErrOf, IsSome, IsTrue, OnOk};
ghost use Rattle.kept_book.specs.Kept.{key_in, IsOpened};
ghost use Rattle.server_words.specs.JournalFault.{IsOfJournal, IsOfSystem};
ghost use Rattle.server_words.specs.SettingsFile.{settings_text};
ghost use Rattle.server_words.specs.declared.journal_fault.JournalFault.{JournalFault};
ghost use Rattle.journal_folders.specs.JournalSettings.{Follows, Gives, IsMismatch, IsUnreadable};

use crate::journals::{JOURNAL_KEY, SettingsFile};
use crate::program_fault::fault_of_kept;
use kept_book::{KeptBook, open_or_create};
use server_words::{
    JournalFault, Mismatch, RunFault, first_difference, read_settings, settings_text,
};
use sqlite_disk::Disk;
use std::alloc::Global;
use std::str;
use upload_book::Settings;

/// Opens the book that a journal keeps, with these settings. Before that is touched, the settings beside it are looked at
/// ([`check_settings`]), and once the book was made again, these settings are put in their place, where they are others.
///
/// The error is of `check_settings`, of [`open_or_create`], or of putting the settings; that is Disk or Memory, and every other
/// fault leaves settings that were there.
pub fn open_kept<F: SettingsFile, D: Disk>(
    alloc: Global,
    file: &mut F,
    mut disk: D,
    settings: Settings,
) -> Result<KeptBook<D>, RunFault>
where
    D: Drop,
    ensures opened { IfOk result (IsOpened settings 8391740119571199346 disk) }
    ensures key { IfOk result (λ kept. key_in kept ≡ 8391740119571199346) }
    ensures follows { OnOk result (IfSome (F.text_in file.old) (Follows settings)) }
    ensures put { OnOk result (F.text_in file.new ≡ Some (settings_text settings)) }
    ensures stays { (why : JournalFault) → IsErrOf result (RunFault.Journal why) → why ≢ JournalFault.Disk
        → IsSome (F.text_in file.old) → file.new ≡ file.old }
    ensures fault { IfErr result IsOfJournal }
{
    check_settings(alloc, file, &mut disk, &settings)?;
    let asked = settings.copied();
    let kept = open_or_create(alloc, settings, disk, JOURNAL_KEY).map_err(fault_of_kept)?;
    renew_settings(alloc, file, &asked)?;
    Ok(kept)
}

/// Sees to it that a journal may be opened with these settings: where there are settings beside it, these may follow them;
/// where there are none, the journal has no byte, and these are put there.
///
/// The error is Settings, with what is wrong; Disk where the journal does not tell its length, or the settings can't be put; or
/// Memory. Settings that are there stay.
pub fn check_settings<F: SettingsFile, D: Disk>(
    alloc: Global,
    file: &mut F,
    disk: &mut D,
    settings: &Settings,
) -> Result<(), RunFault>
    ensures follows { OnOk result (IfSome (F.text_in file.old) (Follows settings.now)) }
    ensures mismatch { IfSome (F.text_in file.old) (λ text. IfErr result (IsMismatch settings.now text)) }
    ensures stays { IsSome (F.text_in file.old) → file.new ≡ file.old }
    ensures new { F.text_in file.old ≡ None → OnOk result (F.text_in file.new ≡ Some (settings_text settings.now)) }
    // Where the disk told no lie.
    ensures empty { F.text_in file.old ≡ None → OnOk result (IsTrue (D.is_clean disk.new) → D.seen disk.old ≡ []) }
    ensures disk { D.seen disk.new ≡ D.seen disk.old }
    ensures clean { IsTrue (D.is_clean disk.new) → IsTrue (D.is_clean disk.old) }
    ensures fault { IfErr result IsOfJournal }
{
    if let Some(text) = file.text() {
        return compare(alloc, text, settings);
    }
    if has_bytes(disk)? {
        return Err(RunFault::Journal(JournalFault::Settings(Mismatch::Missing)));
    }
    renew_settings(alloc, file, settings)
}

/// Whether the file of a journal has a byte. The error is Disk, where it does not tell.
fn has_bytes<D: Disk>(disk: &mut D) -> Result<bool, RunFault>
    ensures none { IfOk result (λ has. IsTrue (D.is_clean disk.new) → has ≡ false → D.seen disk.old ≡ []) }
    ensures seen { D.seen disk.new ≡ D.seen disk.old }
    ensures clean { IsTrue (D.is_clean disk.new) → IsTrue (D.is_clean disk.old) }
    ensures fault { IfErr result IsOfSystem }
{
    if !disk.may_be_used() {
        return Err(RunFault::Journal(JournalFault::Disk));
    }
    match disk.len() {
        Ok(len) => Ok(len > 0),
        Err(_) => Err(RunFault::Journal(JournalFault::Disk)),
    }
}

/// Whether these settings may follow those that a text gives. The error is Settings with what is wrong, or Memory.
fn compare(alloc: Global, text: &[u8], settings: &Settings) -> Result<(), RunFault>
    ensures follows { OnOk result (Follows settings.now text.now) }
    ensures mismatch { IfErr result (IsMismatch settings.now text.now) }
{
    let journal = journal_settings(alloc, text)?;
    match first_difference(&journal, settings) {
        Some(difference) => Err(RunFault::Journal(JournalFault::Settings(Mismatch::Differs(
            difference,
        )))),
        None => Ok(()),
    }
}

/// The settings that the text beside a journal gives. The error is Settings with Unreadable where it gives none, or Memory.
pub fn journal_settings(alloc: Global, text: &[u8]) -> Result<Settings, RunFault>
    ensures given { IfOk result (λ settings. Gives text.now (Some settings)) }
    ensures fault { IfErr result (IsUnreadable text.now) }
{
    let Ok(text) = str::from_utf8(text) else {
        return Err(RunFault::Journal(JournalFault::Settings(Mismatch::Unreadable)));
    };
    match read_settings(alloc, text)? {
        Some(settings) => Ok(settings),
        None => Err(RunFault::Journal(JournalFault::Settings(Mismatch::Unreadable))),
    }
}

/// Puts these settings beside a journal, where others are there, or none. The error is Disk or Memory.
pub fn renew_settings<F: SettingsFile>(
    alloc: Global,
    file: &mut F,
    settings: &Settings,
) -> Result<(), RunFault>
    ensures put { OnOk result (F.text_in file.new ≡ Some (settings_text settings.now)) }
    ensures fault { IfErr result IsOfSystem }
{
    let text = settings_text(alloc, settings)?;
    if file.text() == Some(text.as_slice()) {
        return Ok(());
    }
    file.put(text)
}
