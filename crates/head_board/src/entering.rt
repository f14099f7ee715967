//! How a reader enters its board. Here alone it is told that an entry was missed.
ghost use Rattle.std.specs.Prelude.{◌≡◌, true, IfNone, IfOk, IfSome, MatchResult};
ghost use mathlib.Core.List.{IsPrefix};
ghost use Rattle.head_board.specs.inside.Showing.{log_of, IsFound};
ghost use Rattle.left_right.specs.Sides.{view as known_at};

use crate::board_copy::{BoardCopy, View};
use crate::event_log::SeenEvents;
use crate::showing::{BoardReader, Enters, OneBoard};
use left_right::reader::Reading;

/// The place of a reader that has entered the board.
pub type BoardReading = Reading<BoardCopy, View, OneBoard>;

/// An entry that was missed: it found that the board has been let go, or that it shows fewer events than were seen. Only
/// this file makes one, after it has tried.
#[derive(Drop)]
pub struct Missed(());

/// Enters the board, to read events that begin with those which were seen. Else the entry was missed, and the reader comes
/// back. What its place knows stays.
pub(crate) fn enter(
    reader: BoardReader,
    seen: &SeenEvents,
) -> Result<BoardReading, (BoardReader, Missed)>
    requires knows { (known_at reader.place).knows ≡ true }
    requires log { log_of (known_at reader.place).log ≡ seen.now.book }
    ensures place { MatchResult result (λ reading. known_at reading.place ≡ known_at reader.place)
        (λ missed. known_at missed.0.place ≡ known_at reader.place) }
    ensures found { IfOk result (λ reading. IsFound (known_at reader.place) seen.now reading.part.value) }
{
    let reading = match reader.enter_as::<Enters>() {
        Ok(reading) => reading,
        Err(reader) => return Err((reader, Missed(()))),
    };
    match missed_by(reading.get(), seen) {
        None => Ok(reading),
        Some(missed) => Err((reading.leave(), missed)),
    }
}

// The entry was missed if the copy has fewer events than were seen.
fn missed_by(copy: &BoardCopy, seen: &SeenEvents) -> Option<Missed>
    requires { copy.now.seen.book ≡ seen.now.book }
    ensures begins { IfNone result (IsPrefix seen.now.events copy.now.seen.events) }
    ensures fewer { IfSome result (λ missed. ¬ (IsPrefix seen.now.events copy.now.seen.events)) }
{
    if seen.begins(&copy.seen) {
        None
    } else {
        Some(Missed(()))
    }
}
