//! A kept book, as what answers the requests of a conversation.
ghost use Rattle.kept_book.specs.Kept.{book_in};
ghost use Rattle.tus_program.specs.KeptStep.{IsStepKept};

use http_wire::Answer;
use kept_book::KeptBook;
use sqlite_disk::Disk;
use tus_steps::{PlacedReply, Request};
use upload_book::Moment;

/// A kept book that answers requests, and whether a write or a sync of its journal has failed. From then on a change that the
/// book accepts is refused as where memory lacks, and nothing is asked of the disk.
#[derive(Drop)]
pub struct AtJournal<D: Disk + Drop> {
    pub kept: KeptBook<D>,
    pub has_failed: bool,
}

impl<D: Disk + Drop> Answer for AtJournal<D> {
    ghost max_size = { λ at. (book_in at.kept).settings.numbers.max_size };

    ghost steps = { λ old request now reply new. IsStepKept old.kept old.has_failed request now reply new.kept new.has_failed };

    fn max_size(&self) -> u64 {
        self.kept.book().settings().numbers().max_size
    }

    #[tactic(auto, using(crate::proofs::KeptTalkLemmas::failed_now))]
    fn answer(&mut self, request: &Request, now: Moment, reply: &mut PlacedReply) {
        if self.has_failed {
            self.kept.answer_unkept(request, now, reply);
            return;
        }
        if self.kept.answer(request, now, reply).is_err() {
            self.has_failed = true;
            self.kept.answer_unkept(request, now, reply);
        }
    }
}
