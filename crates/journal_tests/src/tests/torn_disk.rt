//! A disk in memory with room for so many bytes, which fails each call after so many. A crash leaves each byte as it reads, or
//! as it was when the file was last synced.
ghost use Rattle.std.specs.Prelude.{◌≡◌, ◌+◌, ◌<◌, length, true, false, refl, is_ok, IsTrue, OnOk, OnErr, IfOk};
ghost use Rattle.sqlite_disk.specs.Disk.{Holds, Torn, Cut, CountsFault};
ghost use Rattle.sqlite_disk.specs.Refusal.{finds_no_room};
ghost use Rattle.journal_tests.specs.Tearing.{MayTear};

use sqlite_disk::{Disk, Tally, digest_of};
use std::alloc::{AllocError, Global};
use std::io;

#[derive(Drop)]
pub(crate) struct TornDisk {
    alloc: Global,
    bytes: Vec<u8>,
    synced: Vec<u8>,
    room: usize,
    // how many calls are answered yet
    calls: u64,
    usable: bool,
    faults: u64,
    caught: u64,
}

impl TornDisk {
    /// An empty file, on a disk with room for so many bytes that fails each call after so many.
    pub(crate) fn new(alloc: Global, room: usize, calls: u64) -> TornDisk {
        TornDisk {
            alloc,
            bytes: Vec::new(alloc),
            synced: Vec::new(alloc),
            room,
            calls,
            usable: true,
            faults: 0,
            caught: 0,
        }
    }

    /// An empty file, on a disk that neither fills up nor fails.
    pub(crate) fn sound(alloc: Global) -> TornDisk {
        TornDisk::new(alloc, usize::MAX, u64::MAX)
    }

    /// The bytes of the file.
    pub(crate) fn bytes(&self) -> &[u8] {
        &self.bytes
    }

    /// The disk after a crash that lost what was not synced of the bytes from `start` to `end`.
    pub(crate) fn after_loss(&self, start: usize, end: usize) -> Result<TornDisk, AllocError> {
        let mut bytes = self.bytes.to_vec(self.alloc)?;
        for (place, byte) in bytes.iter_mut().enumerate() {
            if start <= place && place < end {
                *byte = self.synced.get(place).copied().unwrap_or(0);
            }
        }
        self.left(bytes)
    }

    /// The disk after a crash that kept, of the bytes that were not synced, those that chance says.
    pub(crate) fn after_crash(&self, seed: u64) -> Result<TornDisk, AllocError> {
        let mut chance = Chance::new(seed);
        let mut bytes = self.bytes.to_vec(self.alloc)?;
        for (place, byte) in bytes.iter_mut().enumerate() {
            if chance.is_lost() {
                *byte = self.synced.get(place).copied().unwrap_or(0);
            }
        }
        self.left(bytes)
    }

    // The disk on which a crash left these bytes. There is no bound to the room and to the calls then.
    fn left(&self, bytes: Vec<u8>) -> Result<TornDisk, AllocError> {
        let synced = bytes.to_vec(self.alloc)?;
        Ok(TornDisk {
            alloc: self.alloc,
            room: usize::MAX,
            calls: u64::MAX,
            bytes,
            synced,
            usable: true,
            faults: 0,
            caught: 0,
        })
    }

    /// Writes bytes at a place. Gives whether it could.
    pub(crate) fn put(&mut self, at: usize, bytes: &[u8]) -> bool {
        self.usable && self.write_at(at, bytes).is_ok()
    }

    /// Raises the byte at a place of the file by one, unless it is 255.
    pub(crate) fn raise(&mut self, place: usize) {
        if let Some(byte) = self.bytes.get_mut(place) {
            *byte = byte.saturating_add(1);
        }
    }
}

// What is lost, by a seed: of seed 0 nothing, of seed 1 all, else each byte or not.
#[derive(Drop)]
struct Chance {
    seed: u64,
    state: u64,
}

impl Chance {
    fn new(seed: u64) -> Chance {
        Chance { seed, state: seed }
    }

    fn is_lost(&mut self) -> bool {
        self.state = self
            .state
            .wrapping_mul(6_364_136_223_846_793_005)
            .wrapping_add(1_442_695_040_888_963_407);
        match self.seed {
            0 => false,
            1 => true,
            _ => self.state >> 63 == 1,
        }
    }
}

impl Disk for TornDisk {
    ghost use Rattle.journal_tests.specs.Tearing.{tears-refl};

    ghost seen = { λ m. m.bytes.items };

    ghost may_leave = { λ m. MayTear m.bytes.items m.synced.items };

    ghost is_usable = { λ m. m.usable };

    ghost faults = { λ m. m.faults };

    ghost is_clean = { λ _. true };

    ghost tally_of = { λ m. record { caught = m.caught; refused = 0 } };

    ghost key_of = { λ _. 0 };

    ghost is_fair = { λ _ _. true };

    ghost is_mixing = { λ _. true };

    ghost fair_if_clean = { λ _ _ _. refl };

    ghost seen_may_stay = { λ m. tears-refl m.bytes.items m.synced.items };

    fn mixes(&self) -> bool {
        true
    }

    fn key(&self) -> u64 {
        0
    }

    fn tally(&self) -> Tally {
        Tally {
            caught: self.caught,
            refused: 0,
        }
    }

    fn may_be_used(&self) -> bool {
        self.usable
    }

    fn len(&mut self) -> io::Result<usize> {
        count(spend(&mut self.calls), &mut self.faults)?;
        Ok(self.bytes.len())
    }

    fn read_at(&mut self, at: usize, buf: &mut [u8]) -> io::Result<()> {
        count(spend(&mut self.calls), &mut self.faults)?;
        if at > self.bytes.len() || buf.len() > self.bytes.len() - at {
            return Err(io::ErrorKind::UnexpectedEof.into());
        }
        buf.copy_from_slice(&self.bytes[at..at + buf.len()]);
        Ok(())
    }

    fn read_checked(&mut self, key: u64, want: u64, at: usize, buf: &mut [u8]) -> io::Result<()> {
        self.read_at(at, buf)?;
        if digest_of(key, buf) != want {
            self.faults = self.faults.saturating_add(1);
            self.caught = self.caught.saturating_add(1);
            return Err(io::ErrorKind::InvalidData.into());
        }
        Ok(())
    }

    fn write_at(&mut self, at: usize, bytes: &[u8]) -> io::Result<()> {
        count(
            overwrite(&mut self.bytes, &mut self.calls, self.room, at, bytes),
            &mut self.faults,
        )
    }

    fn set_len(&mut self, len: usize) -> io::Result<()> {
        count(
            resize(&mut self.bytes, &mut self.calls, len),
            &mut self.faults,
        )
    }

    fn sync(&mut self) -> io::Result<()> {
        self.usable = false;
        count(
            replace(&mut self.synced, &mut self.calls, &self.bytes),
            &mut self.faults,
        )?;
        self.usable = true;
        Ok(())
    }
}

// Counts a call off those that are answered yet.
fn spend(calls: &mut u64) -> Result<(), AllocError> {
    *calls = calls.checked_sub(1).ok_or(AllocError)?;
    Ok(())
}

fn count(outcome: Result<(), AllocError>, faults: &mut u64) -> io::Result<()>
    ensures variant { is_ok result ≡ is_ok outcome }
    ensures kind { finds_no_room result ≡ false }
    ensures faults { CountsFault result faults.old faults.new }
{
    if outcome.is_err() {
        *faults = faults.saturating_add(1);
        return Err(io::Error::from(io::ErrorKind::OutOfMemory));
    }
    Ok(())
}

fn replace(file: &mut Vec<u8>, calls: &mut u64, bytes: &[u8]) -> Result<(), AllocError>
    ensures ok { OnOk result (file.new.items ≡ bytes.now) }
    ensures err { OnErr result (file.new.items ≡ file.old.items) }
{
    spend(calls)?;
    let mut copy = Vec::new(*file.allocator());
    copy.extend_from_slice(bytes)?;
    *file = copy;
    Ok(())
}

fn resize(file: &mut Vec<u8>, calls: &mut u64, len: usize) -> Result<(), AllocError>
    ensures len { OnOk result (length file.new.items ≡ len) }
    ensures others { Cut len file.old.items file.new.items }
    ensures err { OnErr result (file.new.items ≡ file.old.items) }
{
    spend(calls)?;
    file.resize(len, 0)
}

fn overwrite(
    file: &mut Vec<u8>,
    calls: &mut u64,
    room: usize,
    at: usize,
    bytes: &[u8],
) -> Result<(), AllocError>
    ensures written { OnOk result (Holds file.new.items at bytes.now) }
    ensures others { Torn at (length bytes.now) file.old.items file.new.items }
    ensures err { OnErr result (file.new.items ≡ file.old.items) }
{
    spend(calls)?;
    let end = at.checked_add(bytes.len()).ok_or(AllocError)?;
    if end > room {
        return Err(AllocError);
    }
    if end > file.len() {
        file.resize(end, 0)?;
    }
    file[at..end].copy_from_slice(bytes);
    Ok(())
}
