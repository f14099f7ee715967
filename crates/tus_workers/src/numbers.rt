//! The numbers that somebody asks a worker for.

use crate::keeping::Keeping;
use crate::workers::Workers;
use access_log::Watching;
use admin_port::{Question, reply_with};
use head_board::Totals;
use service_watch::{Snapshot, TenantNumbers, metrics_text};
use std::alloc::{AllocError, Global};
use std::io::Eprint;
use std::sync::Wait;
use std::sync::atomic::Ordering;
use std::sync::ledger::Ledger;
use std::time;
use tus_shared::{Charges, Desk};
use upload_book::{Accounts, Settings};

impl<
    'a,
    C: Charges,
    R: Ledger,
    M: Ledger,
    H: Wait + Eprint + time::Clock,
    B: Wait + Drop,
    K: Keeping<C, R, M, B>,
> Workers<'a, C, R, M, H, B, K> {
    /// The reply to a question. A stop is begun where it is asked for. The error is that memory is lacking.
    pub(crate) fn reply_to(
        &self,
        question: Question,
        watching: &Watching,
        desk: &mut Desk<C, R, M>,
    ) -> Result<Vec<u8>, AllocError> {
        let alloc = self.alloc;
        match question {
            Question::Metrics => match desk.totals() {
                Some(totals) => {
                    let text = self.numbers(watching, desk.settings(), &totals)?;
                    reply_with(alloc, b"200 OK", b"", &text)
                }
                None => reply_with(alloc, b"503 Service Unavailable", b"", b"no board\n"),
            },
            Question::Health if self.is_to_stop() => {
                reply_with(alloc, b"503 Service Unavailable", b"", b"stopping\n")
            }
            Question::Health => reply_with(alloc, b"200 OK", b"", b"ok\n"),
            Question::Stop => {
                self.server_state.stop();
                reply_with(alloc, b"202 Accepted", b"", b"stopping\n")
            }
            Question::StopFromElsewhere => {
                reply_with(
                    alloc,
                    b"403 Forbidden",
                    b"",
                    b"POST /stop on this machine\n",
                )
            }
            Question::StopByOtherMethod => {
                reply_with(
                    alloc,
                    b"405 Method Not Allowed",
                    b"Allow: POST\r\n",
                    b"POST /stop\n",
                )
            }
            Question::Other => {
                reply_with(
                    alloc,
                    b"404 Not Found",
                    b"",
                    b"GET /metrics or GET /health\n",
                )
            }
        }
    }

    // All numbers, as text, with the totals that the board told. The book is not locked; the numbers of the journal are, for a
    // moment. The error is that memory is lacking.
    fn numbers(
        &self,
        watching: &Watching,
        settings: &Settings,
        totals: &Totals,
    ) -> Result<Vec<u8>, AllocError> {
        let journal = self.keeping.numbers(self.rt);
        let tenants = tenants_of(self.alloc, settings, totals)?;
        let counts = watching.lock_counts(self.rt);
        metrics_text(
            self.alloc,
            &Snapshot {
                counts: &counts,
                tenants: &tenants,
                connections: self.server_state.open.load(Ordering::Relaxed),
                blocks_free: blocks_free(settings, &totals.accounts),
                blocks_charged: totals.accounts.charged,
                blocks_released: totals.accounts.released,
                journal,
                resident: watching.resident_bytes(),
            },
        )
    }
}

// How many blocks are free: all but those that the tenants pay.
fn blocks_free(settings: &Settings, accounts: &Accounts) -> u64 {
    let mut free = settings.numbers().blocks;
    for paid in accounts.charge {
        free = free.saturating_sub(paid);
    }
    free
}

// The numbers of each tenant. The error is that memory is lacking.
fn tenants_of(
    alloc: Global,
    settings: &Settings,
    totals: &Totals,
) -> Result<Vec<TenantNumbers>, AllocError> {
    let mut tenants = Vec::new(alloc);
    for place in 0..settings.tenant_count().min(totals.uploads.len()) {
        tenants.push(TenantNumbers {
            name: settings.tenant_name(place as u8).copied(),
            paid: totals.accounts.charge[place],
            quota: settings.quota(place),
            uploads: totals.uploads[place],
        })?;
    }
    Ok(tenants)
}
