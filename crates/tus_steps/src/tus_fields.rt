/// The fields that count for the steps, each as an `F`: a place in a head, a field's value, or its text.
#[derive(Clone, Copy, Debug, PartialEq, Eq)]
pub struct TusFields<F> {
    /// `Tus-Resumable`.
    pub version: F,
    /// `Upload-Length`.
    pub length: F,
    /// `Upload-Defer-Length`.
    pub defer: F,
    /// `Upload-Offset`.
    pub offset: F,
    /// `Upload-Metadata`.
    pub metadata: F,
    /// `Upload-Concat`.
    pub concat: F,
    /// `Upload-Checksum`.
    pub checksum: F,
    /// `Content-Type`.
    pub media: F,
}
