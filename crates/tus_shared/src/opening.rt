//! How a store is opened, with its desks.
ghost use Rattle.std.specs.Prelude.{◌≡◌, ◌<◌, ◌≤◌, ◌↔◌, [], Err, IfOk, IsTrue};
ghost use Rattle.tus_shared.specs.Desk.{new_desks};
ghost use Rattle.tus_shared.specs.inside.StoreRule.{IsCounted};
ghost use Rattle.upload_book.specs.Settings.{is_outside};

use crate::charges::Charges;
use crate::desk::Desk;
use crate::open_fault::OpenFault;
use crate::queue::queue_of;
use crate::store::Store;
use crate::store_ledger::StoreLedger;
use head_board::{Board, Opened};
use std::alloc::Global;
use std::sync::Wait;
use std::sync::ledger::{Blank, Ledger};
use upload_book::{Book, HeadRow, Settings};

/// The most desks of one opening.
pub const DESKS_MAX: usize = 16;

impl<C: Charges, R: Ledger, M: Ledger, B: Wait + Drop> Store<C, R, M, B> {
    /// A store with an empty book of these settings, and so many desks, as [`crate::Shared::open`] says, before any of them is
    /// used.
    ///
    /// The error is that of `Shared::open`.
    pub fn open(
        rt: B,
        alloc: Global,
        settings: Settings,
        desks: usize,
        charged: Blank,
        released: Blank,
        made: Blank,
        opened: Opened,
        journal: Option<u64>,
    ) -> Result<(Self, Vec<Desk<C, R, M>>), OpenFault>
        requires settings { settings ≡ C.settings }
        requires desks { desks ≡ C.desks }
        requires charged { (charged.name ≡ C.name) × (charged.parts ≡ C.parts) × (C.parts ≡ 16) }
        requires released { (released.name ≡ R.name) × (released.parts ≡ R.parts) × (R.parts ≡ 16) }
        requires made { (made.name ≡ M.name) × (made.parts ≡ M.parts) × (M.parts ≡ 16) }
        requires log { opened.seen.book ≡ C.log }
        requires journal { journal ≡ C.journal }
        ensures empty { IfOk result (λ opened. opened.0 ≡ []) }
        ensures desks { IfOk result (λ opened. opened.1.items ≡ new_desks C.journal desks) }
        ensures fault { (result ≡ Err OpenFault.Desks) ↔ IsTrue (is_outside desks 16) }
    {
        if desks == 0 || desks > DESKS_MAX {
            return Err(OpenFault::Desks);
        }
        let Ok(book) = Book::new(alloc, settings.copied()) else {
            return Err(OpenFault::Memory);
        };
        let mut charged = StoreLedger::open(charged);
        let mut released = StoreLedger::open(released);
        let mut made = StoreLedger::open(made);
        let queue = queue_of(alloc, journal, opened.seen.again());
        let opened = open_board(
            rt,
            alloc,
            &settings,
            desks,
            journal,
            opened,
            &mut charged,
            &mut released,
            &mut made,
        );
        let (board, desks) = match opened {
            Ok(opened) => opened,
            Err(fault) => {
                // one call each, so that the code that drops their parts is proved by itself
                drop(book);
                drop(queue);
                return Err(fault);
            }
        };
        let store = Store {
            book,
            board,
            charged,
            released,
            made,
            queue,
        };
        Ok((store, desks))
    }
}

// The board of a new store, and so many desks, each with a part of each ledger and a reader of that board.
fn open_board<C: Charges, R: Ledger, M: Ledger, B: Wait + Drop>(
    rt: B,
    alloc: Global,
    settings: &Settings,
    count: usize,
    journal: Option<u64>,
    opened: Opened,
    charged: &mut StoreLedger<C>,
    released: &mut StoreLedger<R>,
    made: &mut StoreLedger<M>,
) -> Result<(Board<B>, Vec<Desk<C, R, M>>), OpenFault>
    requires count { (0 < count) × (count ≤ 16) }
    requires settings { settings.now ≡ C.settings }
    requires log { opened.seen.book ≡ C.log }
    requires journal { journal ≡ C.journal }
    requires charged { IsCounted 0 0 charged.old }
    requires released { IsCounted 0 0 released.old }
    requires made { IsCounted 0 0 made.old }
    ensures board { IfOk result (λ opened. opened.0 ≡ record { settings = C.settings; log = C.log; events = [] }) }
    ensures desks { IfOk result (λ opened. opened.1.items ≡ new_desks C.journal count) }
    ensures charged { IfOk result (λ opened. IsCounted count 0 charged.new) }
    ensures released { IfOk result (λ opened. IsCounted count 0 released.new) }
    ensures made { IfOk result (λ opened. IsCounted count 0 made.new) }
    ensures fault { result ≡ Err OpenFault.Desks → ⊥ }
{
    let Ok(mut board) = Board::new(alloc, rt, settings, count, opened) else {
        return Err(OpenFault::Memory);
    };
    let desks = open_desks(
        alloc, settings, count, journal, &mut board, charged, released, made,
    )?;
    Ok((board, desks))
}

// So many desks of a new store, each with a part of each ledger and a reader of the board.
fn open_desks<C: Charges, R: Ledger, M: Ledger, B: Wait + Drop>(
    alloc: Global,
    settings: &Settings,
    count: usize,
    journal: Option<u64>,
    board: &mut Board<B>,
    charged: &mut StoreLedger<C>,
    released: &mut StoreLedger<R>,
    made: &mut StoreLedger<M>,
) -> Result<Vec<Desk<C, R, M>>, OpenFault>
    requires count { count ≤ 16 }
    requires settings { settings.now ≡ C.settings }
    requires journal { journal ≡ C.journal }
    requires board { board.old ≡ record { settings = C.settings; log = C.log; events = [] } }
    requires charged { IsCounted 0 0 charged.old }
    requires released { IsCounted 0 0 released.old }
    requires made { IsCounted 0 0 made.old }
    ensures desks { IfOk result (λ desks. desks.items ≡ new_desks C.journal count) }
    ensures board { board.new ≡ board.old }
    ensures charged { IfOk result (λ desks. IsCounted count 0 charged.new) }
    ensures released { IfOk result (λ desks. IsCounted count 0 released.new) }
    ensures made { IfOk result (λ desks. IsCounted count 0 made.new) }
    ensures fault { result ≡ Err OpenFault.Desks → ⊥ }
{
    let Ok(mut desks) = Vec::with_capacity(alloc, count) else {
        return Err(OpenFault::Memory);
    };
    for number in 0..count {
        let Ok(row) = Box::new(alloc, HeadRow::empty()) else {
            return Err(OpenFault::Memory);
        };
        let Ok(reader) = board.reader(row) else {
            return Err(OpenFault::Board);
        };
        let kept = reader.seen().again();
        desks.push_reserved(Desk {
            alloc,
            settings: settings.copied(),
            number,
            journal,
            charged: charged.part(),
            released: released.part(),
            made: made.part(),
            reader,
            kept,
            room: 0,
            steps: 0,
        });
    }
    Ok(desks)
}
