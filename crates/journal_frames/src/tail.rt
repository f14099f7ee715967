/// What stands behind the last whole frame of a file.
#[derive(Clone, Copy, Debug, PartialEq, Eq)]
pub enum Tail {
    /// What a crash leaves: zeros, or a frame that lost bytes.
    Torn,
    /// The end of the file, before a header or its body ends. A crash does not leave that of a file that has zeros behind
    /// its frames; a copy that was cut off may be so.
    Cut,
    /// What neither leaves: the file was changed where it lies, or written by something else, or under another key.
    Damaged,
}
