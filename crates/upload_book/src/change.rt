ghost use Rattle.std.specs.Prelude.{◌≡◌};

use crate::append::{Appended, Chunk};
use crate::concat::NewFinal;
use crate::create::{Created, FirstChunk, NewUpload};
use crate::head_row::Name;
use crate::restored::Restored;
use crate::sweep::Swept;
use crate::terminate::Removed;

/// A change of the book, with all that it is given but the moment: what one of its calls does, or a piece that is put back.
#[derive(Drop)]
pub enum Change<'a> {
    /// A creation with the first bytes, which may be none, for the tenant at this place in the settings.
    Create {
        tenant: u8,
        new: NewUpload<'a>,
        first: FirstChunk<'a>,
    },
    /// A PATCH.
    Append {
        name: Name,
        chunk: Chunk<'a>,
    },
    /// A concatenation, for the tenant at this place in the settings.
    Concat {
        tenant: u8,
        new: NewFinal<'a>,
    },
    /// A DELETE.
    Terminate(Name),
    /// The end of all uploads that have expired.
    Sweep,
    /// A piece of a book is put back. No request of a client asks for it: the pieces of a snapshot, one after another, put
    /// a book back that has nothing yet. The moment makes no difference.
    ///
    /// It wants a tenant of the settings. An upload has to have the segments of its kind, one of its own that brings bytes, or 1
    /// to 32 of earlier parts, and texts of their forms.
    ///
    /// An upload gets the tenant's next id, which has to be its own. Its bytes are copied once, and its tenant pays the
    /// blocks that they take. A segment of a final upload brings its bytes, or it holds the blocks of a segment of its
    /// origin that stands, once more: of those no byte is copied, no block is taken, and nothing is paid. An upload is
    /// refused by the first of these that applies: Field, where it has not the tenant's next id; Part, where a segment of
    /// a final one brings no bytes and none of its origin stands, or brings them again; Field, where it does not end as
    /// its kind asks, or a final one lacks bytes; TooLong, where its length is above the greatest size, or its bytes go past
    /// its length, or past the greatest size where it has none yet; PartOpen,
    /// where what stands under the id of a part is no partial upload that has all of its bytes; Uploads, where the tenant
    /// has its greatest number of uploads; Spent, where the tenant has not so many ids, or the blocks that all tenants may
    /// be charged are used up; Quota. Where none of them does, it may be refused as Memory: there was none for the lists
    /// of its blocks, or for its texts.
    ///
    /// A tenant's next id is refused as Field where an id would be given again, and as Spent where the tenant has not so
    /// many. Totals are refused as Field where less would have been released than before, and as Spent where more would have
    /// been charged in all than may be: what was released, and what the tenants pay, which stays.
    Restore(Restored<'a>),
}

impl<'a> Change<'a> {
    /// Computes the SHA-1 of the bytes that the change sends, where one came with them to be compared with it; it is kept
    /// with the bytes, and the change stays what it is. So [`crate::Book::prepare`] need not compute it, under a
    /// lock that may be around the book. It takes no memory.
    pub fn digest(&mut self)
        ensures { self.new ≡ self.old }
    {
        match self {
            Change::Create { first, .. } => first.bytes.digest_for(first.check),
            Change::Append { chunk, .. } => chunk.bytes.digest_for(chunk.check),
            Change::Concat { .. } | Change::Terminate(_) | Change::Sweep | Change::Restore(_) => {}
        }
    }
}

/// What a change that was done gives: what its call gives, or that a piece was put back.
#[derive(Clone, Copy, Debug, PartialEq, Eq)]
pub enum Outcome {
    /// An upload was created, or joined of others.
    Created(Created),
    /// Bytes were added to an upload.
    Appended(Appended),
    /// An upload was ended.
    Removed(Removed),
    /// All uploads that have expired were ended.
    Swept(Swept),
    /// A piece was put back.
    Restored,
}
