ghost use Rattle.journal_frames.specs.Crash.{CutsWholeFrames, LosesWholeFrames, ReadsAgain, StaysTorn};

/// A law: a crash that loses bytes which were written over zeros and not synced leaves all synced frames and the
/// first so many others, and is never taken for damage.
pub fn crashes_leave_whole_frames()
    ensures { LosesWholeFrames }
{}

/// A law: a file of frames that is cut keeps the first so many, and that is told as such.
pub fn cuts_leave_whole_frames()
    ensures { CutsWholeFrames }
{}

/// A law: frames are read again, each payload as it was, and what stands behind them is read on.
pub fn frames_are_read_again()
    ensures { ReadsAgain }
{}

/// A law: a torn tail that loses more bytes, as in a crash while zeros are written over it, is still torn.
pub fn torn_tails_stay_torn()
    ensures { StaysTorn }
{}
