ghost use Rattle.std.specs.Prelude.{◌≡◌, Err, vec_capacity};
ghost use Rattle.upload_book.specs.Book.{plain_of};
ghost use Rattle.upload_book.specs.Content.{LacksRoom, so_far_answer};
ghost use Rattle.upload_book.specs.PlainBook.{answer_of};
ghost use Rattle.upload_book.specs.Refusal.{IsAnswer};

use crate::book::Book;
use crate::content::{ByteSpan, Content};
use crate::head_row::Name;
use crate::moment::Moment;
use crate::refusal::Refusal;

impl Book {
    /// The bytes that an upload has at `now`, whether these are all of them or not. They are copied once, into this vector,
    /// whatever it had before. Memory is taken only where its capacity is less than they are.
    ///
    /// It is refused as Unknown where the id was never given, as Gone where the upload has ended or expired, and else as
    /// Memory where the vector has too little room and got no more.
    pub fn so_far(&self, name: &Name, now: Moment, mut room: Vec<u8>) -> Result<Content, Refusal>
        ensures { IsAnswer
            (answer_of (plain_of self.now) name.now.tenant (so_far_answer name.now.id now))
            (LacksRoom (vec_capacity room) (answer_of (plain_of self.now) name.now.tenant (so_far_answer name.now.id now)))
            (Err Refusal.Memory) result }
    {
        let place = self.store.place(name, now)?;
        let tenant = usize::from(name.tenant);
        let all = ByteSpan::front(self.store.progress(tenant, place).offset);
        room.clear();
        match self.store.read(tenant, place, all, room) {
            Ok(bytes) => Ok(Content::of(bytes)),
            Err(_) => Err(Refusal::Memory),
        }
    }
}
