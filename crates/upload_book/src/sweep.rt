ghost use Rattle.std.specs.Prelude.{◌≡◌, ◌↔◌, ◌<◌, slice_get, IfSome, IsTrue};
ghost use Rattle.upload_book.specs.Book.{plain_of};
ghost use Rattle.upload_book.specs.Sweep.{sweep_answer, book_after_sweep, EndsNone};

use crate::book::Book;
use crate::moment::Moment;

/// What a sweep did.
#[derive(Clone, Copy, Debug, PartialEq, Eq)]
pub struct Swept {
    /// How many uploads it ended.
    pub uploads: u64,
    /// How many blocks became free.
    pub blocks: u64,
    /// How many blocks the tenants no longer pay.
    pub released: u64,
}

impl Book {
    /// Ends all uploads that have expired at `now`. Their blocks become free, but for those that another
    /// upload holds. It takes no memory. Where one has expired, it goes once over the uploads of all tenants, over the blocks of
    /// those that end, and over the list of those that expire; else it looks at no upload.
    pub fn sweep(&mut self, now: Moment) -> Swept
        ensures answer { result ≡ sweep_answer (plain_of self.old) now }
        ensures after { plain_of self.new ≡ book_after_sweep (plain_of self.old) now }
    {
        if self.ends_none(now) {
            return Swept {
                uploads: 0,
                blocks: 0,
                released: 0,
            };
        }
        let before = self.store.free();
        let uploads = self.store.sweep(now) as u64;
        let blocks = u64::from(self.store.free() - before);
        self.expiries.leave_until(now);
        self.released += blocks;
        Swept {
            uploads,
            blocks,
            released: blocks,
        }
    }

    // Whether no upload has expired at `now`.
    pub(crate) fn ends_none(&self, now: Moment) -> bool
        ensures first { IsTrue result ↔ IfSome (slice_get self.now.expiries.list 0) (λ x. now < x.at) }
        ensures none { IsTrue result → EndsNone (plain_of self.now) now }
    {
        self.expiries.begins_after(now)
    }
}
