//! Laws of the definitions that the contracts cite: each is the contract of a function that does nothing.
ghost use Rattle.tus_shared.specs.Finals.{FinalsAreJoined, FinalsOfOpenings, OpeningsGoOn, StepsRestoreNothing};
ghost use Rattle.tus_shared.specs.Laws.{LaterAnswers, OneLog, WithoutAJournal};

/// All desks answer in one list of events: there the replies of every desk are the plain book's, in its own order, and each
/// change that was made is the next event, made at its desk.
pub fn one_log()
    ensures { OneLog }
{}

/// A desk never sees less, by no call. So no later answer of it tells less of an upload than an earlier one, whether a HEAD
/// or a PATCH told it, and whatever the desk did between them.
pub fn later_answers()
    ensures { LaterAnswers }
{}

/// Without a journal a step and a change are the plain book's, and a sweep is made: none is refused for want of room for its
/// record.
pub fn without_a_journal()
    ensures { WithoutAJournal }
{}

/// Where no piece of a snapshot was restored, as without a journal none is, each final upload is the concatenation that it was
/// created from: one of the events joined it of the parts that were there then.
pub fn finals_are_joined()
    ensures { FinalsAreJoined }
{}

/// However many openings of a journal there were, where each goes on from earlier ones, each final upload is the concatenation
/// that it was created from: an event of one of them joined it of the parts that were there then.
pub fn finals_of_openings()
    ensures { FinalsOfOpenings }
{}

/// The first opening of a journal goes on from none; with one event more that restores nothing an opening goes on as before; and
/// one whose book is made again as another left it goes on from that one. Which book a crash leaves, `journal_keeper` says.
pub fn openings_go_on()
    ensures { OpeningsGoOn }
{}

/// What a request or a sweep adds to what happened restores nothing.
pub fn steps_restore_nothing()
    ensures { StepsRestoreNothing }
{}
