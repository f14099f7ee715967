ghost use Rattle.std.specs.Prelude.{◌≡◌, ◌≤◌, [], IfOk, OnErr, length, vec_capacity, vec_len};
ghost use Rattle.std.specs.Thread.{IsSend, IsSync};
ghost use Rattle.std.specs.List.{AllZip};
ghost use Rattle.tus_shared.specs.Answers.{AllFour, AnswersBatch};

use crate::charges::Charges;
use crate::desk::Desk;
use crate::gate::Gate;
use crate::shared::Shared;
use crate::turn::Turn;
use crate::work_fault::WorkFault;
use core::mem;
use std::alloc::{AllocError, Global};
use std::sync::Wait;
use std::sync::ledger::Ledger;
use std::thread::{Threads, join};
use tus_steps::Reply;

/// Answers a batch of requests at each desk, in threads: each desk in one of its own, or one after another
/// where no thread can be had. A batch is answered in its order, each turn through the gate; between two
/// desks there is none. The replies stand as the requests do, a list for each desk, each reply that of
/// [`Desk::answer`] at the desk as the one before left it. Each desk stands after it where it stood before.
///
/// The room for all replies is taken first: the error is that there was too little memory for it, and then
/// no desk has done anything.
pub fn work_all<
    C: Charges + Send + Sync,
    R: Ledger + Send + Sync,
    M: Ledger + Send + Sync,
    G: Gate + Sync,
    W: Threads + Wait + Sync,
    B: Wait + Drop + Send,
>(
    rt: &W,
    alloc: Global,
    shared: &Shared<C, R, M, B>,
    desks: &mut Vec<Desk<C, R, M>>,
    batches: &[&[Turn]],
    gate: &G,
) -> Result<Vec<Vec<Reply>>, WorkFault>
    requires { length batches.now ≡ vec_len desks.old }
    ensures answers { IfOk result (λ replies. AllFour
        (λ batch own before after. AnswersBatch C.settings batch.now own.items before after)
        batches.now replies.items desks.old.items desks.new.items) }
    ensures lacking { OnErr result (desks.new ≡ desks.old) }
    ensures count { vec_len desks.new ≡ vec_len desks.old }
{
    let Ok(rooms) = room_for(alloc, batches) else {
        return Err(WorkFault::Memory);
    };
    let before = mem::replace(desks, Vec::new(alloc));
    let (after, replies) = work(rt, shared, before, batches, rooms, gate);
    *desks = after;
    Ok(replies)
}

// A list for each batch, with room for its replies.
fn room_for(alloc: Global, batches: &[&[Turn]]) -> Result<Vec<Vec<Reply>>, AllocError>
    ensures { IfOk result (λ replies. AllZip
        (λ batch room. (room.items ≡ []) × (length batch.now ≤ vec_capacity room))
        batches.now replies.items) }
{
    let mut replies = Vec::with_capacity(alloc, batches.len())?;
    for batch in batches {
        replies.push_reserved(Vec::with_capacity(alloc, batch.len())?);
    }
    Ok(replies)
}

// Answers the batches at these desks: the last one in a thread of its own, and so the others. The desks and the lists
// of replies are taken by value and given back, the lists filled: of what is only lent to a thread, nothing is known
// after it.
fn work<
    C: Charges + Send + Sync,
    R: Ledger + Send + Sync,
    M: Ledger + Send + Sync,
    G: Gate + Sync,
    W: Threads + Wait + Sync,
    B: Wait + Drop + Send,
>(
    rt: &W,
    shared: &Shared<C, R, M, B>,
    mut desks: Vec<Desk<C, R, M>>,
    batches: &[&[Turn]],
    mut rooms: Vec<Vec<Reply>>,
    gate: &G,
) -> (Vec<Desk<C, R, M>>, Vec<Vec<Reply>>)
    requires desks { length batches.now ≡ length desks.items }
    requires rooms { AllZip
        (λ batch room. (room.items ≡ []) × (length batch.now ≤ vec_capacity room))
        batches.now rooms.items }
    ensures answers { AllFour
        (λ batch own before after. AnswersBatch C.settings batch.now own.items before after)
        batches.now result.1.items desks.items result.0.items }
    ensures desks { vec_capacity result.0 ≡ vec_capacity desks }
    ensures replies { vec_capacity result.1 ≡ vec_capacity rooms }
{
    let Some((batch, others)) = batches.split_last() else {
        return (desks, rooms);
    };
    let desk = desks.pop().unwrap();
    let room = rooms.pop().unwrap();
    let ((mut after, mut replies), (moved, last)) = join(
        rt,
        || -> (Vec<Desk<C, R, M>>, Vec<Vec<Reply>>)
            requires bounds { IsSync W.row × IsSync G.row × IsSend C.row × IsSync C.row × IsSend R.row × IsSync R.row × IsSend M.row × IsSync M.row × IsSend B.row }
            requires desks { length others.now ≡ length desks.items }
            requires rooms { AllZip
                (λ batch room. (room.items ≡ []) × (length batch.now ≤ vec_capacity room))
                others.now rooms.items }
            ensures answers { AllFour
                (λ batch own before after. AnswersBatch C.settings batch.now own.items before after)
                others.entry.now result.1.items desks.items result.0.items }
            ensures desks { vec_capacity result.0 ≡ vec_capacity desks }
            ensures replies { vec_capacity result.1 ≡ vec_capacity rooms }
        { work(rt, shared, desks, others, rooms, gate) },
        || -> (Desk<C, R, M>, Vec<Reply>)
            requires empty { room.items ≡ [] }
            requires room { length batch.now.now ≤ vec_capacity room }
            ensures { AnswersBatch C.settings batch.entry.now.now result.1.items desk result.0 }
        { answered(rt, shared, desk, batch, room, gate) },
    );
    after.push_reserved(moved);
    replies.push_reserved(last);
    (after, replies)
}

// The desk after its batch, and the replies to that, in a list that has room for them.
fn answered<C: Charges, R: Ledger, M: Ledger, G: Gate, W: Wait, B: Wait + Drop>(
    rt: &W,
    shared: &Shared<C, R, M, B>,
    mut desk: Desk<C, R, M>,
    batch: &[Turn],
    room: Vec<Reply>,
    gate: &G,
) -> (Desk<C, R, M>, Vec<Reply>)
    requires empty { room.items ≡ [] }
    requires room { length batch.now ≤ vec_capacity room }
    ensures { AnswersBatch C.settings batch.now result.1.items desk result.0 }
{
    let replies = desk.answer_all(rt, shared, batch, room, gate);
    (desk, replies)
}
