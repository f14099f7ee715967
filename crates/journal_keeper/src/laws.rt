//! Laws of what is kept: each is the contract of a function that does nothing.
ghost use Rattle.std.specs.Prelude.{◌≡◌, ℕ, List, [], Some, All, IfErr, IsTrue, OnOk};
ghost use mathlib.Core.List.{IsPrefix};
ghost use Rattle.head_board.specs.Events.{book_at};
ghost use Rattle.journal_file.specs.Journal.{key_of, IsJournal};
ghost use Rattle.journal_frames.specs.Frames.{recovered};
ghost use Rattle.journal_keeper.specs.Keeper.{IsLeft, MayBeLeft};
ghost use Rattle.journal_keeper.specs.Opening.{IsOutsideRecords, IsRecovered, RecoveredGoOn};
ghost use Rattle.tus_shared.specs.Desk as spec;

use crate::fault::ReopenFault;
use crate::journalled::Journalled;
use crate::keeper::Keeper;
use crate::opening::{Reopened, reopen};
use crate::progress::Progress;
use journal_file::Opened;
use sqlite_disk::Disk;
use std::alloc::Global;
use std::sync::Wait;
use std::sync::ledger::Ledger;
use tus_shared::{Desk, Store};

/// A law: where a keeper keeps all that a desk has seen, as it does once [`Keeper::keep`] has told the desk so and from then
/// on, a crash leaves records of which the plain book is made that is the one after events which begin with all that the desk
/// has seen, and no damage. All replies of the desk rest on these.
pub fn what_was_told_is_left<D: Disk + Drop, C: Journalled, R: Ledger, M: Ledger>(
    keeper: &Keeper<D, C>,
    desk: &Desk<C, R, M>,
)
    requires { IsPrefix desk.now.seen keeper.now.kept }
    ensures { IsTrue C.honest
        → (c : List ℕ) → MayBeLeft D.may_leave keeper.now c → IsLeft keeper.now.key C.settings desk.now.seen c }
{
    keeper.tell_crash();
}

/// The sentence, for several desks: after a crash at any moment the recovered book is the plain book after a list of changes
/// that begins with everything that any reply told.
///
/// Before the crash there were a keeper, whatever became of it, and desks of its store. The keeper keeps all that any of them
/// was told to be kept, as [`Keeper::keep`] leaves it. A reply rests on what its desk has seen, and is sent only once the
/// desk was told that all of this is kept ([`Desk::is_kept`]). Then the machine crashed, and the journal was opened
/// (`Journal::open_or_create`) on a file that the disk may leave, or the one that may have taken its place. Of it a store is
/// made again here, by [`reopen`]. Its book ([`Store::headline`]) is the plain book after one list of events, which begins
/// with all that any of the desks was told to be kept; it is the one that the records of the file make, and none of these is
/// refused. What comes behind all that was kept are the next events of the opening, as far as the keeper tried to keep them
/// ([`Keeper::tried`]): changes that desks of this opening made, in their order.
///
/// The premises. The disk keeps what it synced, and leaves each other byte as it was or as it was written: that is supposed of
/// what it `may_leave`. It told no lie while the journal was opened: of the time before the crash that is `honest`; of that
/// after it, that the records which were read are those of the file, as that opening says where the disk told none. The
/// settings and the key are the same.
pub fn what_was_told_is_recovered<
    D: Disk + Drop,
    C: Journalled,
    R: Ledger,
    M: Ledger,
    E: Journalled,
    S: Ledger,
    N: Ledger,
    B: Wait + Drop,
    P: Progress,
>(
    alloc: Global,
    keeper: &Keeper<D, C>,
    desks: &[Desk<C, R, M>],
    store: &mut Store<E, S, N, B>,
    first: &mut Desk<E, S, N>,
    opened: Opened<D>,
    key: u64,
    progress: &mut P,
) -> Result<Reopened<D, E>, ReopenFault>
    requires told { All (λ (d : spec.Desk). IsPrefix d.kept keeper.now.kept) desks.now }
    requires same_key { keeper.now.key ≡ key }
    requires same_settings { E.settings ≡ C.settings }
    // as of `reopen`
    requires store { store.old ≡ [] }
    requires seen { first.old.seen ≡ [] }
    requires kept { first.old.kept ≡ [] }
    requires key { key_of opened.journal ≡ key }
    requires journal { E.journal ≡ Some key }
    requires honest { IsTrue E.honest → IsJournal opened.journal (recovered key opened.frames.items) [] }
    ensures recovered { IsTrue C.honest → (file : List ℕ)
        → MayBeLeft D.may_leave keeper.now file
        → recovered key opened.frames.items ≡ recovered key file
        → OnOk result (IsRecovered key file C.settings keeper.now.kept keeper.now.tried desks.now (book_at C.settings store.new)) }
    ensures accepts { IsTrue C.honest → (file : List ℕ)
        → MayBeLeft D.may_leave keeper.now file
        → recovered key opened.frames.items ≡ recovered key file
        → IfErr result IsOutsideRecords }
{
    keeper.tell_crash();
    reopen(alloc, store, first, opened, key, progress)
}

/// Each final upload of a store that outlives its process is the concatenation that it was created from: the opening whose book
/// was recovered goes on from the one that a crash ended, and so on. What a final was joined of stood in the book of the opening
/// that joined it ([`tus_shared::laws::finals_of_openings`]).
pub fn recovered_openings_go_on()
    ensures { RecoveredGoOn }
{}
