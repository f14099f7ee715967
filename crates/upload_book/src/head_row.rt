use crate::moment::Moment;
use tus_text::Text;

/// What an upload is for (tus 1.0.0, Concatenation).
#[derive(Clone, Copy, Debug, PartialEq, Eq)]
pub enum Kind {
    /// An upload of its own.
    Plain,
    /// A part of a later final upload.
    Partial,
    /// The concatenation of partial uploads.
    Final,
}

/// The name of an upload: its tenant's place in the settings, from 0, and its id, from 1.
#[derive(Clone, Copy, Debug, PartialEq, Eq)]
pub struct Name {
    pub tenant: u8,
    pub id: u64,
}

/// What a HEAD tells of an upload (tus 1.0.0, Core Protocol and Concatenation). An absent text is
/// empty.
#[derive(Drop)]
pub struct HeadRow {
    pub kind: Kind,
    /// How many bytes it has.
    pub offset: u64,
    /// How many bytes it will have, where that is known.
    pub declared: Option<u64>,
    /// `Upload-Metadata`, as it was accepted.
    pub metadata: Text<1024>,
    /// `Upload-Concat`, as it was accepted.
    pub concat: Text<2048>,
    /// When it expires, if it does.
    pub expires: Option<Moment>,
}
