ghost use Rattle.std.specs.Prelude.{◌≡◌};
ghost use Rattle.http_wire.specs.Layout.{IsMessage};

use crate::framing::Framing;
use crate::read::layout::Layout;
use crate::read::request::request_in;
use tus_steps::Request;

/// A message, lent by its wire until the next call on it.
#[derive(Drop)]
pub struct Message<'a> {
    pub(crate) layout: Layout,
    pub(crate) text: &'a [u8],
    ghost lent: { IsMessage layout text.now },
}

impl Message<'_> {
    ghost use Rattle.http_wire.specs.Message.{request_in, target_in};

    /// The request of the message, whose fields and body are lent.
    pub fn request(&self) -> Request<'_>
        ensures { result ≡ request_in self.now }
    {
        request_in(&self.layout, self.text)
    }

    /// The target of the request, as it was sent (RFC 9112, section 3.2).
    pub fn target(&self) -> &[u8]
        ensures { result.now ≡ target_in self.now }
    {
        let (head, _) = self.text.split_at(self.layout.head_len);
        self.layout.target.of(head)
    }

    /// How the reply is framed.
    pub fn framing(&self) -> Framing
        ensures { result ≡ self.now.layout.framing }
    {
        self.layout.framing
    }
}
