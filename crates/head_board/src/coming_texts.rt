ghost use Rattle.std.specs.Prelude.{◌≡◌, ◌≤◌, [], length};
ghost use Rattle.head_board.specs.inside.ComingTexts.{no_texts, with_bytes, with_piece};

use arrayvec::ArrayVec;
use std::marker::Model;
use tus_text::Text;

/// The most bytes of one piece.
pub(crate) const PIECE: usize = 192;

/// A piece of a text, which follows those before it.
pub type Piece = Text<PIECE>;

/// One of the two texts of an upload.
#[derive(Clone, Copy, Debug, PartialEq, Eq)]
pub enum TextField {
    /// `Upload-Metadata`.
    Metadata,
    /// `Upload-Concat`.
    Concat,
}

/// A text that comes piece by piece, with room for `N` bytes. A contract sees the bytes that came.
#[derive(Drop)]
pub struct ComingText<const N: usize> {
    bytes: ArrayVec<u8, N>,
}

impl<const N: usize> Model for ComingText<N> {
    ghost use Rattle.std.specs.Prelude.{List, ℕ};

    ghost Value = { List ℕ };

    ghost view = { λ text. text.bytes.items };
}

impl<const N: usize> ComingText<N> {
    // A text of which nothing came yet.
    fn new() -> Self
        ensures { result ≡ [] }
    {
        ComingText {
            bytes: ArrayVec::new(),
        }
    }

    // From here on nothing of it came.
    fn clear(&mut self)
        ensures { self.new ≡ [] }
    {
        self.bytes.clear();
    }

    // More of it comes. What there is no room for does not.
    fn add(&mut self, piece: &[u8])
        ensures { self.new ≡ with_bytes N self.old piece.now }
    {
        let _ = self.bytes.try_extend_from_slice(piece);
    }

    // The bytes that came.
    fn as_slice(&self) -> &[u8]
        ensures value { result.now ≡ self.now }
        ensures fits { length result.now ≤ N }
    {
        self.bytes.as_slice()
    }
}

/// The texts of the upload that is created next, as far as they came.
#[derive(Drop)]
pub struct ComingTexts {
    pub(crate) metadata: ComingText<1024>,
    pub(crate) concat: ComingText<2048>,
}

impl ComingTexts {
    /// Texts of which nothing came yet.
    pub(crate) fn new() -> ComingTexts
        ensures { result ≡ no_texts }
    {
        ComingTexts {
            metadata: ComingText::new(),
            concat: ComingText::new(),
        }
    }

    /// From here on nothing of them came.
    pub(crate) fn clear(&mut self)
        ensures { self.new ≡ no_texts }
    {
        self.metadata.clear();
        self.concat.clear();
    }

    /// More of one of them comes.
    pub(crate) fn add(&mut self, field: TextField, piece: &Piece)
        ensures { self.new ≡ with_piece self.old field piece.now }
    {
        match field {
            TextField::Metadata => self.metadata.add(piece.as_slice()),
            TextField::Concat => self.concat.add(piece.as_slice()),
        }
    }

    /// `Upload-Metadata`, as far as it came.
    pub(crate) fn metadata(&self) -> &[u8]
        ensures value { result.now ≡ self.now.metadata }
        ensures fits { length result.now ≤ 1024 }
    {
        self.metadata.as_slice()
    }

    /// `Upload-Concat`, as far as it came.
    pub(crate) fn concat(&self) -> &[u8]
        ensures value { result.now ≡ self.now.concat }
        ensures fits { length result.now ≤ 2048 }
    {
        self.concat.as_slice()
    }
}
