use upload_book::Change;

/// A change that a request asks for.
#[derive(Drop)]
pub struct ChangeOf<'a> {
    pub change: Change<'a>,
    /// How many bytes the reply tells that the upload has, where it is a creation that may carry some.
    pub offset: Option<u64>,
}
