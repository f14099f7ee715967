//! A newer request for an upload ends an older body for it that lies half read.

use crate::bodies::Bodies;
use connection_turns::Precedence;
use std::sync::Wait;
use tus_steps::{Method, Request};
use tus_text::Path;
use unfinished_bodies::{Holder, UploadName};
use upload_book::Settings;

/// What a client's requests wait for: a HEAD, a PATCH or a DELETE for an upload for which another client's body lies half
/// read has that one end first, as a cut whose bytes are kept. So a client that lost its line is told the true offset.
#[derive(Drop)]
pub(crate) struct NewestFirst<'a, W: Wait> {
    pub rt: &'a W,
    pub bodies: &'a Bodies,
    pub settings: &'a Settings,
    pub holder: Holder,
    /// Its message has waited for as long as it may.
    pub has_waited: bool,
}

impl<W: Wait> Precedence for NewestFirst<'_, W> {
    fn may_all_pass(&self) -> bool {
        self.has_waited || !self.bodies.has_half_read()
    }

    fn may_pass(&self, request: &Request) -> bool {
        match request.method {
            Method::Head | Method::Patch | Method::Delete => {
                match upload_of(self.settings, request) {
                    Some(name) => self.bodies.may_pass(self.rt, &name, self.holder),
                    None => true,
                }
            }
            _ => true,
        }
    }
}

/// The name of the upload that a request is for, if its path is that of one of a tenant of these settings.
pub(crate) fn upload_of(settings: &Settings, request: &Request) -> Option<UploadName> {
    match &request.path {
        Path::Upload { tenant, id } => Some(UploadName {
            tenant: settings.tenant(tenant.as_slice())?,
            id: *id,
        }),
        _ => None,
    }
}
