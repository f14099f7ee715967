//! How fast a client goes, and for what it is cut off.
ghost use Rattle.std.specs.Prelude.{◌≡◌, Some};
ghost use Rattle.connection_turns.specs.Pace.{counted, is_over, is_slow, lateness, noted, renewed, setting_out};

/// After how many seconds a rate is judged, so that ten have passed in full.
const WINDOW_SECONDS: u64 = 11;

/// What a client may take at most. 0 is no bound.
#[derive(Clone, Copy)]
pub struct ClientBounds {
    /// For how many seconds it may neither send nor take a byte.
    pub idle: u64,
    /// How many seconds one message of it may take, head and body; of a body in pieces, each piece.
    pub message_seconds: u64,
    /// How many bytes a second it has to send of a body, or to take of a reply.
    pub least_rate: u64,
}

/// What a client is at.
#[derive(Clone, Copy, Debug, PartialEq, Eq)]
pub enum Busy {
    /// All that it sent was answered, and it took all answers.
    Idle,
    /// It has sent a part of a head.
    Head,
    /// It has sent a head and not all of the body.
    Body,
    /// It has not taken all of the replies.
    Reply,
}

/// For what a client is cut off.
#[derive(Clone, Copy, Debug, PartialEq, Eq)]
pub enum Late {
    /// It neither sent nor took a byte for too long.
    Idle,
    /// Its message took too long.
    Message,
    /// It went too slowly.
    Rate,
}

/// How many bytes passed since a second.
#[derive(Clone, Copy)]
pub struct Window {
    pub since: u64,
    pub bytes: u64,
}

/// What is known of how fast a client goes. All times are in seconds of one clock.
#[derive(Clone, Copy)]
pub struct Pace {
    /// When it last sent or took a byte.
    pub moved: u64,
    /// When the message began that is under way.
    pub begun: Option<u64>,
    /// What passed of the body or the reply that is under way.
    pub window: Option<Window>,
}

impl Pace {
    /// A client that came at this second.
    pub fn new(second: u64) -> Self
        ensures { result ≡ setting_out second }
    {
        Pace {
            moved: second,
            begun: None,
            window: None,
        }
    }

    /// Notes what a turn came to that was taken at this second: how many bytes passed, what the client is at now, and whether
    /// a message of it was answered, so that what is under way is another.
    pub fn note(&mut self, second: u64, bytes: u64, busy: Busy, has_answered: bool)
        ensures { self.new ≡ noted second bytes busy has_answered self.old }
    {
        if bytes > 0 {
            self.moved = second;
        }
        if has_answered {
            self.begun = None;
            self.window = None;
        }
        self.begun = match busy {
            Busy::Head | Busy::Body => Some(self.begun.unwrap_or(second)),
            Busy::Idle | Busy::Reply => None,
        };
        self.window = match busy {
            Busy::Body | Busy::Reply => Some(counted(self.window, second, bytes)),
            Busy::Idle | Busy::Head => None,
        };
    }

    /// Notes that at this second a piece of a body was stored and more of the body is to come: the next piece may take as long as
    /// a message.
    pub fn begin_piece(&mut self, second: u64)
        ensures { self.new ≡ record self.old { begun = Some second } }
    {
        self.begun = Some(second);
    }

    /// For what it is to be cut off at this second, if for anything: the first of the three that applies. Seconds are counted
    /// where they have passed in full, so that nobody is cut off before the time. A rate is judged once ten have.
    pub fn lateness(&self, second: u64, bounds: ClientBounds) -> Option<Late>
        ensures { result ≡ lateness second bounds self.now }
    {
        if is_over(bounds.idle, self.moved, second) {
            return Some(Late::Idle);
        }
        if let Some(begun) = self.begun
            && is_over(bounds.message_seconds, begun, second)
        {
            return Some(Late::Message);
        }
        match self.window {
            Some(window) if is_slow(bounds.least_rate, window, second) => Some(Late::Rate),
            _ => None,
        }
    }

    /// Begins to count anew at this second, where ten seconds have passed.
    pub fn renew(&mut self, second: u64)
        ensures { self.new ≡ renewed second self.old }
    {
        if let Some(window) = self.window
            && second.saturating_sub(window.since) >= WINDOW_SECONDS
        {
            self.window = Some(Window {
                since: second,
                bytes: 0,
            });
        }
    }
}

// What was counted, and so many bytes more; or, where nothing was, these since this second.
fn counted(window: Option<Window>, second: u64, bytes: u64) -> Window
    ensures { result ≡ counted window second bytes }
{
    match window {
        Some(window) => Window {
            since: window.since,
            bytes: window.bytes.saturating_add(bytes),
        },
        None => Window {
            since: second,
            bytes,
        },
    }
}

// Whether so many seconds have passed in full since some moment of that second. 0 is no bound.
fn is_over(bound: u64, since: u64, second: u64) -> bool
    ensures { result ≡ is_over bound since second }
{
    bound > 0 && second.saturating_sub(since) > bound
}

// Whether ten seconds or more have passed in full, with fewer bytes than this rate.
fn is_slow(rate: u64, window: Window, second: u64) -> bool
    ensures { result ≡ is_slow rate window second }
{
    let seconds = second.saturating_sub(window.since);
    seconds >= WINDOW_SECONDS
        && u128::from(window.bytes) < u128::from(rate) * u128::from(seconds - 1)
}
