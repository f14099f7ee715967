ghost use Rattle.std.specs.Prelude.{◌≡◌, ◌≤◌, ◌<◌, ◌+◌, [], if◌then◌else◌, is_some, length, not, true, vec_len, vec_capacity, None, IfOk, IfSome, OnErr};
ghost use Rattle.upload_book.specs.inside.Texts.{boxes_in, concat_in, is_boxed, is_reserved, metadata_in, shared_concat, shared_metadata, IsTextsFor};

use crate::settings::Numbers;
use std::alloc::{AllocError, Global};
use std::sync::Arc;
use tus_text::Text;

/// The most uploads of a tenant for whose texts there is memory from the start. Where the settings allow more, the texts of an
/// upload get theirs as it is created.
pub(crate) const RESERVED_UPLOADS: u64 = 64;

/// `Upload-Metadata` and `Upload-Concat` of an upload, each empty where there is none. They have room for 3 KiB,
/// so they lie in a box and not in the upload's row: rows move where one of them is taken out.
#[derive(Drop)]
pub struct Texts {
    pub(crate) metadata: Text<1024>,
    pub(crate) concat: Text<2048>,
}

impl Texts {
    /// Two empty texts.
    fn empty() -> Texts
        ensures { result ≡ record { metadata = []; concat = [] } }
    {
        Texts {
            metadata: Text::empty(),
            concat: Text::empty(),
        }
    }

    /// So many boxes of empty texts. The error is that there was too little memory.
    pub fn boxes(alloc: Global, count: usize) -> Result<Vec<Box<Texts>>, AllocError>
        ensures count { IfOk result (λ v. vec_len v ≡ count) }
        ensures room { IfOk result (λ v. count ≤ vec_capacity v) }
    {
        let mut boxes = Vec::with_capacity(alloc, count)?;
        for _ in 0..count {
            boxes.push_reserved(Box::new(alloc, Texts::empty())?);
        }
        Ok(boxes)
    }

    /// Sets both texts, which are copied to where the ones before them lay.
    fn set(&mut self, metadata: &[u8], concat: &[u8])
        requires metadata { length metadata.now ≤ 1024 }
        requires concat { length concat.now ≤ 2048 }
        ensures { self.new ≡ record { metadata = metadata.now; concat = concat.now } }
    {
        self.metadata.set(metadata);
        self.concat.set(concat);
    }
}

/// Both texts of an upload, in memory as long as they are. They don't change, and several may own them.
#[derive(Drop)]
pub struct SharedTexts {
    pub(crate) texts: Arc<ExactTexts, Global>,
}

/// The texts that are owned so.
#[derive(Drop)]
pub struct ExactTexts {
    pub(crate) metadata: Vec<u8>,
    pub(crate) concat: Vec<u8>,
}

impl SharedTexts {
    /// These texts, which are copied once. The error is that there was no memory for them.
    pub fn copied(alloc: Global, metadata: &[u8], concat: &[u8]) -> Result<SharedTexts, AllocError>
        ensures metadata { IfOk result (λ t. shared_metadata t ≡ metadata.now) }
        ensures concat { IfOk result (λ t. shared_concat t ≡ concat.now) }
    {
        let exact = ExactTexts {
            metadata: Vec::from_slice(alloc, metadata)?,
            concat: Vec::from_slice(alloc, concat)?,
        };
        Ok(SharedTexts {
            texts: Arc::new(alloc, exact)?,
        })
    }

    /// The same texts, with one more owner. It takes no memory. The error is that there are as many owners as can be counted,
    /// 2^63 - 1, which no run comes to.
    pub fn again(&self) -> Result<SharedTexts, AllocError>
        ensures metadata { IfOk result (λ t. shared_metadata t ≡ shared_metadata self.now) }
        ensures concat { IfOk result (λ t. shared_concat t ≡ shared_concat self.now) }
    {
        Ok(SharedTexts {
            texts: Arc::try_clone(&self.texts)?,
        })
    }

    /// `Upload-Metadata`.
    pub fn metadata(&self) -> &[u8]
        ensures { result.now ≡ shared_metadata self.now }
    {
        self.texts.metadata.as_slice()
    }

    /// `Upload-Concat`.
    pub fn concat(&self) -> &[u8]
        ensures { result.now ≡ shared_concat self.now }
    {
        self.texts.concat.as_slice()
    }
}

/// Where the texts of an upload lie: in a box that was there from the start, or in memory that was taken for them.
#[derive(Drop)]
pub enum UploadTexts {
    Boxed(BoxedTexts),
    Shared(SharedTexts),
}

/// Texts in a box that has room for the texts of any upload.
#[derive(Drop)]
pub struct BoxedTexts {
    pub(crate) place: Box<Texts>,
}

impl UploadTexts {
    /// Those that were taken for an upload, or else its texts in one of the spare boxes, to which they are copied. It takes no
    /// memory.
    pub fn placed(
        spare: &mut Vec<Box<Texts>>,
        taken: Option<SharedTexts>,
        metadata: &[u8],
        concat: &[u8],
    ) -> UploadTexts
        requires metadata { length metadata.now ≤ 1024 }
        requires concat { length concat.now ≤ 2048 }
        requires taken { IfSome taken (λ t. (shared_metadata t ≡ metadata.now) × (shared_concat t ≡ concat.now)) }
        requires spare { taken ≡ None → 0 < vec_len spare.old }
        ensures metadata { metadata_in result ≡ metadata.now }
        ensures concat { concat_in result ≡ concat.now }
        ensures kind { is_boxed result ≡ not (is_some taken) }
        ensures spare { vec_len spare.new + boxes_in (is_boxed result) ≡ vec_len spare.old }
        ensures capacity { vec_capacity spare.new ≡ vec_capacity spare.old }
    {
        match taken {
            Some(shared) => UploadTexts::Shared(shared),
            None => {
                let mut place = spare.pop().unwrap();
                place.set(metadata, concat);
                UploadTexts::Boxed(BoxedTexts { place })
            }
        }
    }

    /// Gives the box back to the spare ones, where the texts lie in one; else their memory is given up.
    pub fn give_back(self, spare: &mut Vec<Box<Texts>>)
        requires { is_boxed self ≡ true → vec_len spare.old < vec_capacity spare.old }
        ensures spare { vec_len spare.new ≡ vec_len spare.old + boxes_in (is_boxed self) }
        ensures capacity { vec_capacity spare.new ≡ vec_capacity spare.old }
    {
        match self {
            UploadTexts::Boxed(boxed) => spare.push_reserved(boxed.place),
            UploadTexts::Shared(_) => {}
        }
    }

    /// `Upload-Metadata`.
    pub fn metadata(&self) -> &[u8]
        ensures { result.now ≡ metadata_in self.now }
    {
        match self {
            UploadTexts::Boxed(boxed) => boxed.place.metadata.as_slice(),
            UploadTexts::Shared(shared) => shared.metadata(),
        }
    }

    /// `Upload-Concat`.
    pub fn concat(&self) -> &[u8]
        ensures { result.now ≡ concat_in self.now }
    {
        match self {
            UploadTexts::Boxed(boxed) => boxed.place.concat.as_slice(),
            UploadTexts::Shared(shared) => shared.concat(),
        }
    }
}

/// Whether there is a box for the texts of each upload from the start, where a tenant may have so many uploads.
pub fn has_boxes(uploads: u64) -> bool
    ensures { result ≡ is_reserved uploads }
{
    uploads <= RESERVED_UPLOADS
}

/// How many boxes for texts there are from the start, where a tenant may have so many uploads.
pub fn boxes_from_start(uploads: usize) -> usize
    ensures { result ≡ (if is_reserved uploads then uploads else 0) }
{
    if has_boxes(uploads as u64) {
        uploads
    } else {
        0
    }
}

/// The memory for the texts of a new upload, where the settings allow so many uploads that it is not there from the start.
/// The error is that there was none.
pub(crate) fn texts_ahead(
    alloc: Global,
    numbers: &Numbers,
    metadata: &[u8],
    concat: &[u8],
) -> Result<Option<SharedTexts>, AllocError>
    ensures texts { IfOk result (λ taken. IsTextsFor numbers.now.uploads taken metadata.now concat.now) }
    ensures memory { OnErr result (64 < numbers.now.uploads) }
{
    if has_boxes(numbers.uploads) {
        return Ok(None);
    }
    Ok(Some(SharedTexts::copied(alloc, metadata, concat)?))
}
