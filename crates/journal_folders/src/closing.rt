//! Files that are let go beside the work.

use std::thread::{Builder, Threads};

/// The bytes of the stack of a thread that does nothing else.
const STACK_BYTES: usize = 131_072;

/// Lets a file go in a thread of its own. Whoever lets go of the last handle to a file that has no name any more waits until the
/// file system has its blocks back, which on some disks takes as long as to write them did. Where there is no thread, it is let
/// go here.
pub fn close_beside<T: Threads, F: Send + Drop + 'static>(threads: &T, file: F) {
    // Where there is no thread the closure is let go, and the file with it.
    let _ = Builder::new()
        .stack_size(STACK_BYTES)
        .spawn(threads, move || drop(file));
}
