//! What is told while the changes of a journal are made again.

/// Is told, record by record, how far it has come while all changes are made again whose records a journal has. No contract
/// says what it does with that.
pub trait Progress {
    /// The change of one more record was made again, whose frame has so many bytes.
    fn note(&mut self, bytes: usize);
}
