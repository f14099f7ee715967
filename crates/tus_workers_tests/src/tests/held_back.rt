//! Replies that are held back until they may be told.
ghost use Rattle.std.specs.Prelude.{true};
ghost use Rattle.http_wire.specs.BookStep.{BookStep};
ghost use Rattle.upload_book.specs.Book.{plain_of};

use crate::tests::client_connection::{Arriving, Leaving, text_of};
use crate::tests::opening::moment;
use connection_turns::{
    AsTheyCome, ClientConnection, Durability, Streams, TurnOutcome, Turned, Unwatched,
};
use http_wire::{Answer, RequestLimits};
use std::test::Fail;
use tus_steps::{PlacedReply, Request, answer_in_place};
use upload_book::{Book, Moment};
use worked_example::{CREATED, HEAD, LOOKED, PATCH, PATCHED, POST, settings};

/// A book that holds back its replies.
#[derive(Drop)]
struct Withheld {
    book: Book,
}

impl Answer for Withheld {
    ghost max_size = { λ w. (plain_of w.book).settings.numbers.max_size };

    ghost steps = { λ old request now reply new. BookStep old.book request now reply new.book };

    fn max_size(&self) -> u64 {
        self.book.settings().numbers().max_size
    }

    fn answer(&mut self, request: &Request, now: Moment, reply: &mut PlacedReply) {
        answer_in_place(&mut self.book, request, now, reply);
    }
}

impl Durability for Withheld {
    ghost holds_back = { λ w. true };

    fn holds_back(&self) -> bool {
        true
    }
}

/// Three messages are answered in one turn, and nothing is written; then their replies are sent, once there is room.
#[test]
fn replies_are_sent_when_they_may_be(rt: HostRuntime) -> Result<(), Fail> {
    let alloc = rt.alloc();
    let sent = text_of(alloc, &[POST, PATCH], HEAD, 1)?;
    let expected = text_of(alloc, &[CREATED, PATCHED], LOOKED, 1)?;
    let mut answerer = Withheld {
        book: Book::new(alloc, settings()?)?,
    };
    let mut clock = moment(&rt);
    let mut free = Vec::new(alloc);
    let mut client_connection = ClientConnection::new(RequestLimits::alike(64), None, 4096);
    let mut streams = Streams {
        reader: Arriving {
            rest: &sent,
            piece: usize::MAX,
            has_blocked: true,
        },
        writer: Leaving {
            written: Vec::new(alloc),
            piece: usize::MAX,
            has_blocked: false,
        },
    };
    for _ in 0..2 {
        let Turned {
            outcome,
            streams: after,
            ..
        } = client_connection.attend(
            alloc,
            &mut free,
            streams,
            &mut answerer,
            &mut clock,
            &AsTheyCome,
            false,
            &mut Unwatched,
        );
        assert_eq!(rt; outcome, TurnOutcome::AwaitsKeeping);
        assert!(rt; after.writer.written.is_empty() && after.reader.rest.is_empty());
        streams = after;
    }
    let blocked = client_connection.send(&mut free, streams.writer);
    assert_eq!(rt; blocked.outcome, TurnOutcome::AwaitsRoom);
    let all = client_connection.send(&mut free, blocked.writer);
    assert_eq!(rt; all.outcome, TurnOutcome::HasMore);
    assert!(rt; all.writer.written.as_slice() == expected.as_slice());
    assert_eq!(rt; all.moved, expected.len());
    assert_eq!(rt; free.len(), 1, "the buffers of a silent client");
    Ok(())
}
