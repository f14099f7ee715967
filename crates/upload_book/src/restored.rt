use crate::concat::NewFinal;
use crate::create::{Created, NewUpload};
use crate::expiry::may_end;
use crate::final_back::brought_in;
use crate::head_note::Growth;
use crate::head_row::{Kind, Name};
use crate::moment::Moment;
use crate::row_ref::RowRef;
use crate::settings::Numbers;
use std::marker::Model;

/// A piece of a book that is put back.
#[derive(Drop)]
pub enum Restored<'a> {
    /// An upload of the tenant at this place in the settings.
    Upload {
        tenant: u8,
        upload: RestoredUpload<'a>,
    },
    /// The id that the next upload of the tenant at this place gets. The ids between were given, and nothing stands under
    /// them.
    Next {
        tenant: u8,
        next: u64,
    },
    /// How many blocks that were charged were released so far. How many were charged in all follows from it, and from what the
    /// tenants pay.
    Totals {
        released: u64,
    },
}

/// A segment of an upload that is put back. A contract sees its bytes as a list.
#[derive(Default, Drop)]
pub struct RestoredSegment<'a> {
    /// The upload to which its bytes were sent.
    pub origin: u64,
    /// Its bytes, or `None` where they are those of a segment of the same origin that stands.
    pub bytes: Option<&'a [u8]>,
}

impl<'a> Model for RestoredSegment<'a> {
    ghost use Rattle.std.specs.Prelude.{List, ℕ, option_map};
    ghost use Rattle.std.specs.Borrow.{Bor};
    ghost use Rattle.upload_book.specs.snapshot.Restored as spec;

    ghost Value = { spec.RestoredSegment };

    ghost view = { λ s. record {
      origin = s.origin;
      bytes = option_map (λ (bytes : Bor (List ℕ)). bytes.now) s.bytes;
    } };
}

/// An upload that is put back. A contract sees its texts as lists of bytes.
#[derive(Drop)]
pub struct RestoredUpload<'a> {
    pub id: u64,
    pub kind: Kind,
    /// Its length in bytes, where that is known.
    pub declared: Option<u64>,
    /// Its one segment, or those of a final upload, part by part.
    pub segments: &'a [RestoredSegment<'a>],
    /// `Upload-Metadata`; empty where there is none.
    pub metadata: &'a [u8],
    /// `Upload-Concat`; empty where there is none.
    pub concat: &'a [u8],
    /// When it expires, if it does.
    pub expires: Option<Moment>,
}

impl<'a> Model for RestoredUpload<'a> {
    ghost use Rattle.upload_book.specs.snapshot.Restored as spec;

    ghost Value = { spec.RestoredUpload };

    ghost view = { λ u. record {
      id = u.id;
      kind = u.kind;
      declared = u.declared;
      segments = u.segments.now;
      metadata = u.metadata.now;
      concat = u.concat.now;
      expires = u.expires;
    } };
}

impl<'a> RestoredUpload<'a> {
    ghost use Rattle.std.specs.Prelude.{◌≡◌, ◌<◌, ◌^◌, ℕ, false, List, [], ◌∷◌, Some, length, unwrap_or};
    ghost use Rattle.upload_book.specs.Append.{is_final};
    ghost use Rattle.upload_book.specs.inside.Back.{new_of, row_back};
    ghost use Rattle.upload_book.specs.inside.FinalBack.{brought_in, final_named};
    ghost use Rattle.upload_book.specs.snapshot.Restore.{IsRestorable, ends_rightly};

    /// The bytes of one that is not final, which it brings.
    pub(crate) fn own_bytes(&self) -> &'a [u8]
        requires { 0 < length self.now.segments }
        ensures { (bytes : List ℕ) → self.now.segments ≡ record { origin = self.now.id; bytes = Some bytes } ∷ []
            → result.now ≡ bytes }
    {
        self.segments[0].own_bytes()
    }

    /// One that is not final, as a new upload without its bytes and its end.
    pub(crate) fn as_new(&self) -> NewUpload<'a>
        ensures { result ≡ new_of self.now }
    {
        NewUpload {
            partial: self.kind == Kind::Partial,
            length: self.declared,
            metadata: self.metadata,
            concat: self.concat,
        }
    }

    /// A final one, as a new one of no parts, which its pieces give.
    pub(crate) fn as_final(&self) -> NewFinal<'a>
        ensures { result ≡ final_named self.now }
    {
        NewFinal {
            parts: &[],
            metadata: self.metadata,
            concat: self.concat,
        }
    }

    /// Whether it may have its end, where it is complete or not; a final one has to be complete.
    pub(crate) fn ends_rightly(&self, numbers: &Numbers, complete: bool) -> bool
        ensures { result ≡ ends_rightly numbers.now self.now.kind complete self.now.expires }
    {
        may_end(numbers, self.kind, complete, self.expires)
            && (complete || self.kind != Kind::Final)
    }

    /// Its name, as one of the tenant at this place, and its end.
    pub(crate) fn created(&self, tenant: u8) -> Created
        ensures { result ≡ record {
          name = record { tenant = tenant; id = self.now.id };
          expires = self.now.expires;
        } }
    {
        Created {
            name: self.name(tenant),
            expires: self.expires,
        }
    }

    /// Its name, as one of the tenant at this place.
    pub(crate) fn name(&self, tenant: u8) -> Name
        ensures { result ≡ record { tenant = tenant; id = self.now.id } }
    {
        Name {
            tenant,
            id: self.id,
        }
    }

    /// What a HEAD tells of one that is not final.
    pub(crate) fn own_row(&self) -> RowRef<'a>
        requires own { is_final self.now.kind ≡ false }
        requires form { IsRestorable self.now }
        ensures { (bytes : List ℕ) → self.now.segments ≡ record { origin = self.now.id; bytes = Some bytes } ∷ []
            → result ≡ row_back self.now (length bytes) }
    {
        self.row(self.own_bytes().len() as u64)
    }

    /// What a HEAD tells of a final one, which has all of its bytes.
    pub(crate) fn final_row(&self) -> RowRef<'a>
        requires { IsRestorable self.now }
        ensures { result ≡ row_back self.now (unwrap_or self.now.declared 0) }
    {
        self.row(self.declared.unwrap_or(0))
    }

    // What a HEAD tells of it where it has so many bytes.
    fn row(&self, len: u64) -> RowRef<'a>
        requires { IsRestorable self.now }
        ensures { result ≡ row_back self.now len }
    {
        let growth = Growth {
            offset: len,
            declared: self.declared,
            expires: self.expires,
        };
        RowRef::new(self.kind, growth, self.metadata, self.concat)
    }

    /// How many blocks of a size the bytes take that it brings.
    pub(crate) fn blocks(&self, size: u64) -> u64
        requires size { 0 < size }
        requires fits { brought_in size self.now.segments < 2 ^ 64 }
        ensures { result ≡ brought_in size self.now.segments }
    {
        brought_in(self.segments, size)
    }
}

impl<'a> RestoredSegment<'a> {
    ghost use Rattle.std.specs.Prelude.{◌≡◌, ◌<◌, ℕ, List, Some, length, option_map};
    ghost use Rattle.upload_book.specs.inside.FinalBack.{brought_blocks};

    /// How many bytes it brings, where it does.
    pub(crate) fn len(&self) -> Option<u64>
        ensures { result ≡ option_map length self.now.bytes }
    {
        match self.bytes {
            Some(bytes) => Some(bytes.len() as u64),
            None => None,
        }
    }

    /// How many blocks of a size the bytes take that it brings.
    pub(crate) fn blocks(&self, size: u64) -> u64
        requires { 0 < size }
        ensures { result ≡ brought_blocks size self.now }
    {
        match self.bytes {
            Some(bytes) => (bytes.len() as u64).div_ceil(size),
            None => 0,
        }
    }

    // Its bytes, where it brings them.
    fn own_bytes(&self) -> &'a [u8]
        ensures { (bytes : List ℕ) → self.now.bytes ≡ Some bytes → result.now ≡ bytes }
    {
        match self.bytes {
            Some(bytes) => bytes,
            None => b"",
        }
    }
}
