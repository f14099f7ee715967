ghost use Rattle.std.specs.Prelude.{◌≡◌};
ghost use Rattle.tus_text.specs.Date.{expires_text};

use tus_text::write_expires;
use upload_book::Moment;

/// The date of the second that was written last: within one second it is put together once.
#[derive(Drop)]
pub struct LastDate {
    secs: u64,
    text: [u8; 29],
    ghost shown: { text ≡ expires_text secs },
}

impl LastDate {
    /// That of the second 0.
    pub fn new() -> Self {
        LastDate {
            secs: 0,
            text: write_expires(0),
        }
    }

    /// The date of a moment, which is the last from then on.
    pub fn at(&mut self, moment: Moment) -> [u8; 29]
        ensures { result ≡ expires_text moment }
    {
        let secs = moment.secs();
        if self.secs != secs {
            *self = LastDate {
                secs,
                text: write_expires(secs),
            };
        }
        self.text
    }
}
