use crate::framing::Framing;
use crate::refusal::WireRefusal;

/// What comes next on a wire. `M` is what tells of a message.
#[derive(Drop)]
pub enum Incoming<M: Drop> {
    /// A whole message.
    Message(M),
    /// A PATCH whose body was cut, with the bytes that came. It gets no reply.
    CutPatch(M, Cut),
    /// Any other message that was cut. It gets no reply.
    CutOther,
    /// A request that the wire refuses. It is answered by `Connection::answer`, or by `Wire::write_refusal`.
    Refused(WireRefusal, Framing),
    /// The end of the input, with no byte of a message before it, or of a wire that reads no more.
    End,
}

/// What cut a body.
#[derive(Clone, Copy, Debug, PartialEq, Eq)]
pub enum Cut {
    /// The input ended.
    Ended,
    /// A read failed.
    Fault,
}
