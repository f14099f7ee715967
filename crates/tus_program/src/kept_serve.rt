//! The command `serve` with a journal.
ghost use Rattle.std.specs.Prelude.{◌≡◌, ◌≢◌, [], Some, false, true, IfErr, IsErrOf, IsTrue, OnOk};
ghost use Rattle.journal_file.specs.Journal.{key_of, IsJournal};
ghost use Rattle.journal_frames.specs.Frames.{recovered};
ghost use Rattle.server_words.specs.Arguments.{serve_arguments_of};
ghost use Rattle.server_words.specs.SettingsFile.{settings_text};
ghost use Rattle.journal_folders.specs.StreamUse.{used};
ghost use Rattle.server_words.specs.declared.cause.Cause.{Cause};
ghost use Rattle.server_words.specs.declared.journal_fault.JournalFault.{JournalFault};
ghost use Rattle.tus_program.specs.Serve.{BreaksOff, IsPlaceAsked, KeepsQuiet, ServesEach, is_of_kept_service};
ghost use Rattle.tus_program.specs.Sockets.{sockets};

use crate::blanks::Blanks;
use crate::keeping::InJournal;
use crate::program_fault::{fault_of_opening, fault_of_reopening};
use crate::progress::ProgressLine;
use crate::serve::serve_desks;
use crate::started::tell_started;
use http_wire::Sink;
use journal_file::{Journal, JournalPlace, Opened as OpenedJournal};
use journal_folders::{JOURNAL_KEY, SettingsFile, fault_of_journal, renew_settings};
use journal_keeper::{Journalled, SharedKeeper, reopen};
use server_words::{JournalFault, RunFault, ServeOptions};
use sqlite_disk::Disk;
use std::alloc::Global;
use std::fs::{File, Files};
use std::io::Eprint;
use std::marker::Brand;
use std::net::{Net, SocketAddr, TcpListener, TcpStream};
use std::sync::Wait;
use std::sync::ledger::Ledger;
use std::thread::Threads;
use std::time;
use std::time::Instant;
use tus_shared::{Shared, Store};
use tus_workers::Listener;
use upload_book::Settings;

/// Serves connections as [`crate::serve::serve`] says, over the book that the journal of this disk keeps: all changes are made
/// again whose records it has, and no reply is sent before it has all that this tells. Where it becomes large, a smaller one is
/// written beside it, and takes its place on the location. Where the settings beside it are others, these are put in their place
/// once all changes were made again, and before a connection is accepted.
///
/// The error is that of `serve`, or the journal's: Damaged or Record where the file is none of a journal, or of one of other
/// settings, which stay, and Disk where a read, a write or a sync failed. Then all workers end.
pub fn serve_kept<
    L: Listener,
    D: Disk,
    F: SettingsFile,
    P: JournalPlace<D> + Sync + Drop,
    H: Threads
        + Wait
        + Net<Stream = TcpStream, Listener = TcpListener>
        + time::Clock
        + Eprint
        + Files<File = File>
        + Sync
        + Send
        + Copy
        + 'static,
    W: Sink,
>(
    rt: &H,
    alloc: Global,
    settings: Settings,
    options: &ServeOptions,
    place: SocketAddr,
    disk: D,
    location: P,
    file: &mut F,
    output: &mut W,
) -> Result<(), RunFault>
where
    D: Send + Drop,
    L::Acceptor: Send + Drop,
    L: Drop,
    requires place { IsPlaceAsked (serve_arguments_of options.now) place }
    requires output { W.has_failed output.old ≡ false }
    ensures fault { IfErr result (λ fault. is_of_kept_service fault ≡ true) }
    ensures memory { IsErrOf result RunFault.Memory → output.new ≡ output.old }
    ensures wire { (cause : Cause) → IsErrOf result (RunFault.Wire cause)
        → BreaksOff (sockets L.asked L.place L.Acceptor.accepted L.Acceptor.has_failed L.Acceptor.is_stopped)
        (serve_arguments_of options.now) settings (used W.contents W.has_failed output.old output.new)
        cause }
    ensures journal { (why : JournalFault) → IsErrOf result (RunFault.Journal why)
        → KeepsQuiet (used W.contents W.has_failed output.old output.new) why }
    ensures stays { (why : JournalFault) → IsErrOf result (RunFault.Journal why) → why ≢ JournalFault.Disk → file.new ≡ file.old }
    ensures all { OnOk result
        (ServesEach (sockets L.asked L.place L.Acceptor.accepted L.Acceptor.has_failed L.Acceptor.is_stopped)
        (serve_arguments_of options.now) settings (used W.contents W.has_failed output.old output.new)) }
    ensures put { OnOk result (F.text_in file.new ≡ Some (settings_text settings)) }
{
    let start = Instant::now(rt).ok();
    let opened = match Journal::open_or_create(alloc, disk, JOURNAL_KEY) {
        Ok(opened) => opened,
        Err(error) => return Err(fault_of_journal(error)),
    };
    serve_journalled::<L, D, F, P, Brand, Brand, Brand, H, W>(
        rt,
        alloc,
        settings,
        options,
        place,
        &start,
        opened,
        location,
        Blanks::new(),
        file,
        output,
    )
}

// Opens a desk for each worker, makes all changes again whose records the journal has, tells what was read since the start, and
// serves at these desks.
fn serve_journalled<
    L: Listener,
    D: Disk,
    F: SettingsFile,
    P: JournalPlace<D> + Sync + Drop,
    C: Journalled + Send + Sync,
    R: Ledger + Send + Sync,
    M: Ledger + Send + Sync,
    H: Threads
        + Wait
        + Net<Stream = TcpStream, Listener = TcpListener>
        + time::Clock
        + Eprint
        + Files<File = File>
        + Sync
        + Send
        + Copy
        + 'static,
    W: Sink,
>(
    rt: &H,
    alloc: Global,
    settings: Settings,
    options: &ServeOptions,
    place: SocketAddr,
    start: &Option<Instant>,
    journal: OpenedJournal<D>,
    location: P,
    blanks: Blanks,
    file: &mut F,
    output: &mut W,
) -> Result<(), RunFault>
where
    D: Send + Drop,
    L::Acceptor: Send + Drop,
    L: Drop,
    requires settings { settings ≡ C.settings }
    requires desks { options.now.workers ≡ C.desks }
    requires place { IsPlaceAsked (serve_arguments_of options.now) place }
    requires charged { (blanks.charged.name ≡ C.name) × (blanks.charged.parts ≡ C.parts) × (C.parts ≡ 16) }
    requires released { (blanks.released.name ≡ R.name) × (blanks.released.parts ≡ R.parts) × (R.parts ≡ 16) }
    requires made { (blanks.made.name ≡ M.name) × (blanks.made.parts ≡ M.parts) × (M.parts ≡ 16) }
    requires log { blanks.events.seen.book ≡ C.log }
    requires key { key_of journal.journal ≡ 8391740119571199346 }
    requires journal { C.journal ≡ Some 8391740119571199346 }
    requires honest { IsTrue C.honest → IsJournal journal.journal (recovered 8391740119571199346 journal.frames.items) [] }
    requires output { W.has_failed output.old ≡ false }
    ensures fault { IfErr result (λ fault. is_of_kept_service fault ≡ true) }
    ensures memory { IsErrOf result RunFault.Memory → output.new ≡ output.old }
    ensures wire { (cause : Cause) → IsErrOf result (RunFault.Wire cause)
        → BreaksOff (sockets L.asked L.place L.Acceptor.accepted L.Acceptor.has_failed L.Acceptor.is_stopped)
        (serve_arguments_of options.now) C.settings (used W.contents W.has_failed output.old output.new)
        cause }
    ensures journal { (why : JournalFault) → IsErrOf result (RunFault.Journal why)
        → KeepsQuiet (used W.contents W.has_failed output.old output.new) why }
    ensures stays { (why : JournalFault) → IsErrOf result (RunFault.Journal why) → why ≢ JournalFault.Disk → file.new ≡ file.old }
    ensures all { OnOk result
        (ServesEach (sockets L.asked L.place L.Acceptor.accepted L.Acceptor.has_failed L.Acceptor.is_stopped)
        (serve_arguments_of options.now) C.settings (used W.contents W.has_failed output.old output.new)) }
    ensures put { OnOk result (F.text_in file.new ≡ Some (settings_text C.settings)) }
{
    let (mut store, mut desks) = Store::<C, R, M, &H>::open(
        rt,
        alloc,
        settings,
        options.workers,
        blanks.charged,
        blanks.released,
        blanks.made,
        blanks.events,
        Some(JOURNAL_KEY),
    )
    .map_err(fault_of_opening)?;
    let Some(mut desk) = desks.pop() else {
        return Err(RunFault::Memory);
    };
    let mut progress = ProgressLine::new(rt, start, journal.frames.len());
    let reopened = reopen(
        alloc,
        &mut store,
        &mut desk,
        journal,
        JOURNAL_KEY,
        &mut progress,
    );
    progress.clear();
    let reopened = reopened.map_err(fault_of_reopening)?;
    renew_settings(alloc, file, desk.settings())?;
    tell_started(rt, start, reopened.records, store.headline());
    desks.push_reserved(desk);
    let keeping = InJournal {
        keeper: SharedKeeper::new(reopened.keeper),
        place: location,
    };
    let served = serve_desks::<L, C, R, M, H, &H, InJournal<D, C, P>, W>(
        rt,
        alloc,
        options,
        place,
        Shared::new(store),
        desks,
        &keeping,
        output,
    );
    keeping.mark(rt);
    // What stands beside the journal is of use only to a server that goes on.
    keeping.place.give_up();
    if keeping.has_failed() {
        return Err(RunFault::Journal(JournalFault::Disk));
    }
    served
}
