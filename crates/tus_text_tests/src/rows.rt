//! Tables of texts.

use std::process::Abort;

/// Asserts of each row, a text and what is wanted of it, that it is right.
pub(crate) fn assert_rows<T: Copy, F: Fn(&[u8], T) -> bool>(
    rt: &impl Abort,
    rows: &[(&[u8], T)],
    is_right: F,
)
    requires { F.IsAlwaysCallable is_right }
{
    for (row, (text, wanted)) in rows.iter().enumerate() {
        assert!(rt; is_right(text, *wanted), "row {row}");
    }
}
