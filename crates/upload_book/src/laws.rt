//! Laws of the definitions that the contracts cite: each is the contract of a function that does nothing.
ghost use Rattle.upload_book.specs.laws.ContentsStay.{ContentsStay};
ghost use Rattle.upload_book.specs.laws.FinalsStay.{FinalsStay};
ghost use Rattle.upload_book.specs.laws.PiecedCreation.{PiecedCreation, PiecedCreationOfBook};
ghost use Rattle.upload_book.specs.laws.PiecedPatch.{PiecedPatch};
ghost use Rattle.upload_book.specs.laws.PiecedPatchOfBook.{PiecedPatchOfBook};
ghost use Rattle.upload_book.specs.laws.Steps.{AccountsFollow, FollowOrder, HeadsFollow, ResumedPatch, RowsFollow};
ghost use Rattle.upload_book.specs.snapshot.RestoreLaws.{PiecesLeave};
ghost use Rattle.upload_book.specs.snapshot.Snapshot.{SnapshotsRestore};

/// The tests that decide on a creation, on a concatenation, on a PATCH and on a GET follow the one order of
/// refusals.
pub fn refusals_follow_the_order()
    ensures { FollowOrder }
{}

/// An upload goes on where it stopped: a PATCH that is accepted, with a checksum or without, may be sent in
/// two without one, of which the second begins at the offset after the first. At one moment both are
/// accepted, and the last answer and the tenant's part after it are those of the whole.
pub fn resumed_patch()
    ensures { ResumedPatch }
{}

/// A PATCH may come in pieces, however it is cut. With nothing between them they come to what it comes to as one at the
/// moment of the last, if it is accepted then; and what is refused as one is refused at the first piece.
pub fn pieced_patch()
    ensures { PiecedPatch }
{}

/// So it is with a book: the pieces are PATCHes of it, one after another, and leave the book that the whole leaves.
pub fn pieced_patch_of_a_book()
    ensures { PiecedPatchOfBook }
{}

/// A creation with first bytes may come in two: its first piece, and a PATCH of what is behind it. While the upload stands, with
/// nothing between them, they come to what the creation comes to as one, if that is accepted.
pub fn pieced_creation()
    ensures { PiecedCreation }
{}

/// The same of a lawful book: both are accepted, the PATCH tells what the creation tells, and the book is the same after it.
pub fn pieced_creation_of_a_book()
    ensures { PiecedCreationOfBook }
{}

/// What a HEAD shows after a PATCH of an upload that was found, or why that is refused, is determined without the
/// bytes that the upload had: by what a HEAD showed before, the tenant's account, the chunk, the moment and the numbers
/// of the settings.
pub fn rows_follow()
    ensures { RowsFollow }
{}

/// What a tenant pays after a PATCH is determined by what it paid before, by the upload's offset and by how many
/// bytes there are: so the account follows a PATCH without the bytes.
pub fn accounts_follow()
    ensures { AccountsFollow }
{}

/// The heads of a lawful book follow each change by its line alone, which may follow on them: after the line they are
/// the heads of the book after the change. A change that is refused has no line.
pub fn heads_follow()
    ensures { HeadsFollow }
{}

/// A final upload is the concatenation that it was created from. Whatever happens to its parts or to others, it stays
/// whole until it is ended itself; and each final upload of a book was made by a concatenation that happened to it.
pub fn finals_stay()
    ensures { FinalsStay }
{}

/// A lawful book is put back by its snapshot: the book at the start accepts each of its pieces, one after another, and is
/// that book after them. Whatever is put back, a lawful book stays lawful.
pub fn snapshots_restore()
    ensures { SnapshotsRestore }
{}

/// Whatever is put back of a book, each upload that stands stays as it is; and each upload of the book then was there, or is
/// the one that was put back, with the bytes that came with it or that stand.
pub fn pieces_leave()
    ensures { PiecesLeave }
{}

/// The bytes of an upload that is complete never change while it stands, whatever happens, and its name is given to no other:
/// so they may be read piece by piece.
pub fn contents_stay()
    ensures { ContentsStay }
{}
