ghost use Rattle.std.specs.Prelude.{◌≡◌, ◌++◌, ◌∷◌, [], IfSome, IsTrue, false};
ghost use mathlib.Core.List.{IsPrefix};
ghost use Rattle.head_board.specs.Events.{event_of};
ghost use Rattle.head_board.specs.inside.EventLog.{word_of, IsMore};

use crate::event::{Coming, Event};
use logbook::{Gain, Offer, Plain, Play, Rule, Seen, Start, Word};
use std::marker::Model;
use std::sync::Wait;

/// The rule of a log of events: its word is their number.
pub struct Law;

impl Rule<Event, u64> for Law {
    ghost use Rattle.std.specs.Prelude.{[]};
    ghost use base.Fml.{ftrue};
    ghost use Rattle.head_board.specs.inside.EventLog.{IsLog};

    ghost holds = { λ cells log. IsLog cells log };

    ghost first = { [] };

    ghost hinted = { λ n log. Unit {0} };

    ghost shows = { λ log. [] };

    ghost keeps = { λ names log. ftrue };

    ghost moves = { λ ask before after answer. Unit {0} };
}

// Who adds an event trades nothing for it.
struct NoGain;

impl Gain<Event, u64> for NoGain {
    ghost use base.Fml.{ftrue};

    ghost after = { λ names about answer. ftrue };
}

// The step that adds an event.
struct Add;

impl Play<Event, u64> for Add {
    ghost use Rattle.head_board.specs.inside.EventLog.{Adds};

    ghost then = { Adds };
}

impl<'a, 'b> Plain<Coming<'a, 'b>, Event, u64> for Add {
    ghost use Rattle.std.specs.Prelude.{None};
    ghost use Rattle.head_board.specs.Events.{event_of};

    ghost ask = { event_of };

    ghost state = { λ coming. None };
}

/// The word of a log: the number of its events.
pub type LogWord = Word<Event, u64, Law>;

/// How far a log was seen: its first events. It keeps none of them, only how many they are. A contract sees which log it
/// is, and the events.
#[derive(Drop)]
pub struct SeenEvents {
    count: u64,
    seen: Seen<Event, u64, Law>,
}

impl Model for SeenEvents {
    ghost use Rattle.std.specs.Prelude.{◌≡◌, length};
    ghost use Rattle.head_board.specs.inside.EventLog.{LogPrefix};

    ghost Value = { LogPrefix };

    ghost view = { λ s. record { book = s.seen.book; events = s.seen.log } };

    ghost invariant = { λ s. s.count ≡ length s.seen.log };
}

impl SeenEvents {
    /// A copy, which takes no memory.
    pub fn again(&self) -> SeenEvents
        ensures { result ≡ self.now }
    {
        SeenEvents {
            count: self.count,
            seen: self.seen.again(),
        }
    }

    /// Whether no more was seen than at the other place: exactly then its events begin with these.
    pub fn begins(&self, other: &SeenEvents) -> bool
        requires { self.now.book ≡ other.now.book }
        ensures begins { IsTrue result → IsPrefix self.now.events other.now.events }
        ensures more { result ≡ false → ¬ (IsPrefix self.now.events other.now.events) }
    {
        let mut both = self.seen.again();
        both.learn(&other.seen);
        self.count <= other.count
    }

    /// A copy of these or of the others, where more was seen.
    pub(crate) fn more(&self, other: &SeenEvents) -> SeenEvents
        requires { self.now.book ≡ other.now.book }
        ensures { IsMore self.now other.now result }
    {
        if self.begins(other) {
            other.again()
        } else {
            self.again()
        }
    }

    /// Adds an event to the log. It waits until the log has no more events than these. No run has to wait for that, where
    /// nobody else adds to the log, until there are 2^64 - 1 events.
    pub(crate) fn with<W: Wait>(&self, rt: &W, word: &LogWord, coming: &Coming) -> SeenEvents
        requires { word.now ≡ word_of self.now.book }
        ensures { result ≡ record self.now { events = self.now.events ++ event_of coming.now ∷ [] } }
    {
        for _ in rt.forever() {
            if let Some(longer) = self.with_next(word, coming) {
                return longer;
            }
        }
        unreachable!()
    }

    // Adds an event to the log, if that has no more than these.
    fn with_next(&self, word: &LogWord, coming: &Coming) -> Option<SeenEvents>
        requires { word.now ≡ word_of self.now.book }
        ensures { IfSome result (λ s. s ≡ record self.now { events = self.now.events ++ event_of coming.now ∷ [] }) }
    {
        let longer = self.count.checked_add(1)?;
        let mut seen = self.seen.again();
        let mut offer: Offer<Event, u64, Law, NoGain> = seen.plain::<NoGain, Coming, Add>(coming);
        let mut pen = seen.no_pen();
        let found = word.compare_exchange::<Add, NoGain>(
            self.count, longer, &mut seen, &mut offer, &mut pen,
        );
        if found == self.count {
            Some(SeenEvents {
                count: longer,
                seen,
            })
        } else {
            None
        }
    }
}

/// A log with no event yet: its word, and that nothing of it was seen.
#[derive(Drop)]
pub struct Opened {
    pub word: LogWord,
    pub seen: SeenEvents,
    pub ghost empty: { seen.events ≡ [] },
    pub ghost word_is: { word ≡ word_of seen.book },
}

impl Opened {
    /// A new log. It takes no memory.
    pub fn new() -> Opened {
        let (seen, mut first, _second) = Seen::open(Start::alone(), 0, 0);
        Opened {
            word: Word::tracked(0, &mut first),
            seen: SeenEvents { count: 0, seen },
        }
    }
}
