//! Whether the faults of a command are explained.
ghost use Rattle.std.specs.Prelude.{◌≡◌};
ghost use Rattle.server_words.specs.Arguments.{arguments_of, serve, serve_arguments_of};
ghost use Rattle.server_words.specs.Explained.{asks_more, is_least_work};

use crate::options::{CommandOptions, ServeOptions, WorkerOptions};

impl<'m, 'a> CommandOptions<'m, 'a> {
    /// Whether it asks for more than a conversation, or than connections of this machine one after another: for a journal, a
    /// log, a port for numbers, another address, bodies in pieces, or clients at once or for ever. Its faults are explained then.
    pub fn asks_more(&self) -> bool
        ensures { result ≡ asks_more (arguments_of self.now) }
    {
        match self {
            CommandOptions::Talk(options) => options.journal.is_some() || options.piece.is_some(),
            CommandOptions::Serve(options) => options.asks_more(),
            CommandOptions::Check(_) | CommandOptions::Export(_) => true,
        }
    }
}

impl<'m, 'a> ServeOptions<'m, 'a> {
    /// Whether they ask for more than connections of this machine one after another.
    fn asks_more(&self) -> bool
        ensures { result ≡ asks_more (serve (serve_arguments_of self.now)) }
    {
        self.address != "127.0.0.1"
            || self.journal.is_some()
            || self.log.is_some()
            || self.metrics.is_some()
            || !self.work.is_least()
    }
}

impl WorkerOptions {
    /// Whether each worker serves one connection after another and gathers bodies, with no other bounds than that one may
    /// be silent for a minute, and those of the settings.
    fn is_least(&self) -> bool
        ensures { result ≡ is_least_work self.now }
    {
        self.connections <= 4096
            && self.at_once == 1
            && self.idle == 60
            && self.message_seconds == 0
            && self.least_rate == 0
            && self.body_memory == 1 << 28
            && self.piece.is_none()
            && self.max_body.is_none()
    }
}
