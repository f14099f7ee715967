ghost use Rattle.std.specs.Prelude.{◌≡◌};
ghost use Rattle.head_board.specs.inside.Showing.{noted};

use crate::board_copy::{BoardCopy, Note, View};
use atomic_table::{Join, Split};
use crossbeam_utils::rule::{Outcome, Protocol};
use left_right::Absorb;
use left_right::reader::Reader;
use left_right::writer::Writer;
use std::alloc::AllocError;

impl Absorb<Note> for BoardCopy {
    type State = BoardCopy;

    ghost state = { λ s. s };

    ghost applied = { noted };

    fn absorb_first(&mut self, note: &Note, _other: &BoardCopy) -> Result<(), AllocError> {
        match note {
            Note::Nothing => {}
            Note::NoTexts => self.coming.clear(),
            Note::More(field, piece) => self.coming.add(*field, piece),
            Note::Adds(added) => self.add(added)?,
        }
        Ok(())
    }
}

/// The rule of a board.
pub struct OneBoard;

impl Protocol<BoardCopy, View> for OneBoard {
    ghost use Rattle.head_board.specs.inside.Showing.{IsConsistent, no_view};

    ghost holds = { IsConsistent };

    ghost first = { no_view };
}

/// The place of the writer.
pub type BoardWriter = Writer<BoardCopy, Note, View, OneBoard>;

/// The place of a reader.
pub type BoardReader = Reader<BoardCopy, View, OneBoard>;

/// The writer shows the first copy, and knows from then on which board it is.
pub(crate) struct Begins;

impl Outcome<BoardCopy, View> for Begins {
    ghost use Rattle.head_board.specs.inside.Showing.{view_of};

    ghost then = { λ v x y w. w ≡ view_of y };
}

/// The writer shows the next copy.
pub(crate) struct Publishes;

impl Outcome<BoardCopy, View> for Publishes {
    ghost then = { λ v x y w. w ≡ v };
}

/// A reader enters the copy that is shown.
pub(crate) struct Enters;

impl Outcome<BoardCopy, View> for Enters {
    ghost use Rattle.head_board.specs.inside.Showing.{Fits, IsCurrent};

    ghost then = { λ v x y w. IsCurrent y × Fits v y × (w ≡ v) };
}

/// The writer tells a new reader what it knows,
pub(crate) struct Tells;

impl Split<View> for Tells {
    ghost left = { λ v. v };

    ghost right = { λ v. v };
}

/// and the reader knows it.
pub(crate) struct Learns;

impl Join<View> for Learns {
    ghost use Rattle.head_board.specs.inside.Showing.{no_view};

    ghost both = { λ v w. w };

    ghost spent = { no_view };
}
