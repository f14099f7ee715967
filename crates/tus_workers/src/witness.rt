//! Who sees the turns of a client.

use crate::noting::{NotedReply, seen_refusal};
use access_log::{Seen, SeenRequest};
use connection_turns::Observer;
use http_wire::{Connection, Incoming, Message};
use std::mem;

/// Who sees the turns of one client.
#[derive(Drop)]
pub(crate) struct Witness<'n> {
    /// What is told of them in the access log.
    pub seen: Seen,
    // What the last reply tells, as who answered has noted it.
    noted: &'n NotedReply,
    // Whether a piece of a body was stored, with more of the body to come, and nobody asked for that yet.
    has_stored: bool,
}

impl<'n> Witness<'n> {
    /// Nothing has happened yet, and what will is noted in `seen`. What a reply tells is found in `noted`.
    pub fn new(seen: Seen, noted: &'n NotedReply) -> Self {
        Witness {
            seen,
            noted,
            has_stored: false,
        }
    }

    /// Whether a piece of a body was stored, with more of the body to come, since this was asked before.
    pub fn take_stored(&mut self) -> bool {
        mem::replace(&mut self.has_stored, false)
    }

    // This message is to be answered now. Before its reply so many bytes are pending.
    fn ask(&mut self, message: &Message, pending: usize) {
        let request = message.request();
        let seen = SeenRequest {
            method: request.method,
            path: &request.path,
            target: message.target(),
            received: request.given.saturating_add(request.body.len() as u64),
        };
        self.seen.asks(&seen, pending);
    }
}

impl Observer for Witness<'_> {
    fn has_read(&mut self, bytes: usize) {
        self.seen.has_read(bytes);
    }

    fn has_sent(&mut self, bytes: usize) {
        self.seen.has_sent(bytes);
    }

    // Where nobody watches, the message is not read once more.
    fn asks(&mut self, connection: &Connection) {
        if !self.seen.is_watched() {
            return;
        }
        let pending = connection.pending_len();
        match (connection.piece(), connection.incoming()) {
            (Some(message), _)
            | (None, Some(Incoming::Message(message) | Incoming::CutPatch(message, _))) => {
                self.ask(&message, pending);
            }
            (None, Some(Incoming::Refused(refusal, _))) => {
                self.noted.set(Some(seen_refusal(refusal)));
                self.seen.asks_unreadable(pending);
            }
            (None, _) => self.seen.asks_nothing(pending),
        }
    }

    fn has_answered(&mut self, connection: &Connection) {
        let is_in_pieces = connection.is_in_pieces();
        self.has_stored |= is_in_pieces;
        let reply = self.noted.replace(None);
        self.seen
            .has_answered(is_in_pieces, reply, connection.pending_len());
    }
}
