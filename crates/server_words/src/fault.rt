//! Why a run did not do what it was asked for: its exit status, and the two lines that tell it.
ghost use Rattle.std.specs.Prelude.{◌≡◌};
ghost use Rattle.server_words.specs.Arguments.{arguments_of};
ghost use Rattle.server_words.specs.Fault.{line_of, status_of};
ghost use Rattle.server_words.specs.Sentences.{sentence_of};
ghost use Rattle.server_words.specs.declared.cause.Cause.TheVariants.{Workers};
ghost use Rattle.server_words.specs.declared.fault.RunFault.TheVariants.{Memory, Settings, Wire};

use crate::cause::Cause;
use crate::journal_fault::JournalFault;
use crate::options::CommandOptions;
use crate::sentence::{SENTENCE_MAX, sentence};
use arrayvec::ArrayString;
use std::alloc::AllocError;
use std::io;
use upload_book::SettingsFault;

/// The most bytes of a line that names a fault.
const LINE_MAX: usize = 64;

/// Why the program did not do what it was asked for.
#[derive(Clone, Copy, Debug, PartialEq, Eq)]
pub enum RunFault {
    /// A word of the command line is not UTF-8, or memory was lacking to say why the words are refused.
    Words,
    /// The address is none of IPv4 or IPv6.
    Address,
    /// Numbers are to be asked for at the port of the clients.
    Ports,
    /// The settings have a fault.
    Settings(SettingsFault),
    /// A read or a write failed, or of `serve` a socket.
    Wire(Cause),
    /// The journal can't be had, or failed, or has no such upload.
    Journal(JournalFault),
    /// There was no memory to begin with.
    Memory,
}

impl RunFault {
    /// The exit status of the program: 2 for the words, the address, the ports and the settings, 3 for the connection, 4 for
    /// memory, 5 for the journal.
    pub fn status(&self) -> u8
        ensures { result ≡ status_of self.now }
    {
        match self {
            RunFault::Words | RunFault::Address | RunFault::Ports | RunFault::Settings(_) => 2,
            RunFault::Wire(_) => 3,
            RunFault::Memory => 4,
            RunFault::Journal(_) => 5,
        }
    }

    /// The line that names the fault: `tus-server: `, then `words` (also of the ports), `address`, `settings: ` and the word of
    /// its fault, `wire`, `journal: ` and the word of its fault, or `memory`, and LF.
    #[tactic(auto, using(crate::proofs::FaultLemmas::short_word))]
    pub fn line(&self) -> ArrayString<LINE_MAX>
        ensures { result.bytes ≡ line_of self.now }
    {
        let mut line = ArrayString::new();
        line.push_str("tus-server: ");
        match self {
            RunFault::Words | RunFault::Ports => line.push_str("words"),
            RunFault::Address => line.push_str("address"),
            RunFault::Settings(fault) => {
                line.push_str("settings: ");
                line.push_str(fault.word());
            }
            RunFault::Wire(_) => line.push_str("wire"),
            RunFault::Journal(fault) => {
                line.push_str("journal: ");
                line.push_str(fault.word());
            }
            RunFault::Memory => line.push_str("memory"),
        }
        line.push_str("\n");
        line
    }

    /// The line after that: a sentence that says what was wrong with this command, and what to do.
    pub fn sentence(&self, command: &CommandOptions) -> ArrayString<SENTENCE_MAX>
        ensures { result.bytes ≡ sentence_of (arguments_of command.now) self.now }
    {
        sentence(self, command)
    }
}

impl From<SettingsFault> for RunFault {
    ghost from_gives = { λ fault run. run ≡ Settings fault };

    fn from(fault: SettingsFault) -> RunFault {
        RunFault::Settings(fault)
    }
}

impl From<AllocError> for RunFault {
    ghost from_gives = { λ _ run. run ≡ Memory };

    fn from(_: AllocError) -> RunFault {
        RunFault::Memory
    }
}

impl From<io::Error> for RunFault {
    ghost from_gives = { λ _ run. run ≡ Wire Workers };

    fn from(_: io::Error) -> RunFault {
        RunFault::Wire(Cause::Workers)
    }
}
