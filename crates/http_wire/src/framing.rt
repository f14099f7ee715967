/// How the reply to a message is framed.
#[derive(Clone, Copy, Debug, PartialEq, Eq)]
pub struct Framing {
    /// The reply has no body, no Content-Type and no Content-Length: the message is a HEAD.
    pub bare: bool,

    /// The connection closes after the reply.
    pub close: bool,
}
