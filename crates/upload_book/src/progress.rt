ghost use Rattle.std.specs.Prelude.{◌≡◌, ◌+◌, ◌<◌, ◌≤◌, ◌^◌, length, nat_lt};
ghost use Rattle.upload_book.specs.Account.{blocks_added};
ghost use Rattle.upload_book.specs.Append.{append_refusal, differ, refusal_by_row, row_with};
ghost use Rattle.upload_book.specs.Progress.{row_at, progress_in};
ghost use Rattle.upload_book.specs.Upload.{is_reached};

use crate::append::Chunk;
use crate::board_line::Account;
use crate::checksum::{is_mismatch, is_of_other_algorithm};
use crate::expiry::renewed;
use crate::head_row::Kind;
use crate::moment::Moment;
use crate::refusal::Refusal;
use crate::settings::Numbers;

/// How far an upload is: its row without the texts.
#[derive(Clone, Copy, Debug, PartialEq, Eq)]
pub struct Progress {
    /// What it is for.
    pub kind: Kind,
    /// How many bytes it has.
    pub offset: u64,
    /// How many bytes it will have, where that is known.
    pub declared: Option<u64>,
    /// When it expires, if it does.
    pub expires: Option<Moment>,
}

impl Progress {
    /// Whether the upload has all of its bytes.
    pub fn is_complete(&self) -> bool
        ensures { result ≡ is_reached self.now.declared self.now.offset }
    {
        self.declared == Some(self.offset)
    }

    /// How far the upload is after a PATCH.
    pub(crate) fn with(&self, numbers: &Numbers, chunk: &Chunk, now: Moment) -> Progress
        requires { self.now.offset + length chunk.now.bytes < 2 ^ 64 }
        ensures { result ≡ progress_in (row_with numbers.now (row_at self.now) chunk.now now) }
    {
        let declared = self.declared.or(chunk.length);
        let offset = self.offset + chunk.bytes.len() as u64;
        let was_complete = self.is_complete();
        let is_complete = declared == Some(offset);
        Progress {
            kind: self.kind,
            offset,
            declared,
            expires: renewed(
                numbers,
                self.kind,
                was_complete,
                is_complete,
                self.expires,
                now,
            ),
        }
    }
}

/// Why a PATCH of an upload is refused before its checksum is compared, if it is.
pub(crate) fn refusal_by_row(
    numbers: &Numbers,
    progress: &Progress,
    chunk: &Chunk,
) -> Option<Refusal>
    ensures { result ≡ refusal_by_row numbers.now (row_at progress.now) chunk.now }
{
    let max_size = numbers.max_size;
    let most = progress.declared.or(chunk.length).unwrap_or(max_size);
    let len = chunk.bytes.len() as u64;
    if progress.kind == Kind::Final {
        Some(Refusal::IsFinal)
    } else if !chunk.typed {
        Some(Refusal::Media)
    } else if chunk.offset != progress.offset {
        Some(Refusal::Offset)
    } else if differ(progress.declared, chunk.length) {
        Some(Refusal::LengthFixed)
    } else if most > max_size || ends_past(progress.offset, len, chunk.more, most) {
        Some(Refusal::TooLong)
    } else if is_of_other_algorithm(chunk.check) {
        Some(Refusal::Algorithm)
    } else {
        None
    }
}

/// Why a PATCH of an upload is refused on its tenant's account, if it is.
pub(crate) fn append_refusal(
    numbers: &Numbers,
    account: &Account,
    progress: &Progress,
    chunk: &Chunk,
) -> Option<Refusal>
    requires max_size { numbers.now.max_size < 2 ^ 64 }
    requires blocks { 0 < numbers.now.block_size }
    requires quota { account.now.charge ≤ account.now.quota }
    requires charged { account.now.charged ≤ numbers.now.last_total }
    ensures { result ≡ append_refusal numbers.now account.now (row_at progress.now) chunk.now }
{
    if let Some(refusal) = refusal_by_row(numbers, progress, chunk) {
        return Some(refusal);
    }
    let last_total = numbers.last_total;
    let all = chunk.bytes.len() as u64 + chunk.more;
    let added = blocks_added(numbers, progress.offset, all);
    if is_mismatch(chunk.check, &chunk.bytes) {
        Some(Refusal::Mismatch)
    } else if added > last_total - account.charged {
        Some(Refusal::Spent)
    } else if added > account.quota - account.charge {
        Some(Refusal::Quota)
    } else {
        None
    }
}

/// How many blocks more so many bytes after an offset take: those beyond the rest of its last block.
pub(crate) fn blocks_added(numbers: &Numbers, offset: u64, more: u64) -> u64
    requires size { 0 < numbers.now.block_size }
    requires end { offset + more < 2 ^ 64 }
    ensures { result ≡ blocks_added numbers.now offset more }
{
    let size = numbers.block_size;
    (offset + more).div_ceil(size) - offset.div_ceil(size)
}

// Whether so many bytes after an offset, and more behind them, end past a length.
pub(crate) fn ends_past(offset: u64, len: u64, more: u64, most: u64) -> bool
    ensures { result ≡ nat_lt most (offset + (len + more)) }
{
    match len
        .checked_add(more)
        .and_then(|all| offset.checked_add(all))
    {
        Some(end) => end > most,
        None => true,
    }
}

// Whether both are there, and differ.
fn differ(known: Option<u64>, told: Option<u64>) -> bool
    ensures { result ≡ differ known told }
{
    match (known, told) {
        (Some(known), Some(told)) => known != told,
        _ => false,
    }
}
