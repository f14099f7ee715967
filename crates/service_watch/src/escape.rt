//! Text from outside, escaped by percent signs, so that it is one word of printable ASCII.
ghost use Rattle.std.specs.Prelude.{◌≡◌, ◌++◌, OnOk};
ghost use Rattle.service_watch.specs.Escape.{escaped, shown};

use percent_encoding::{AsciiSet, CONTROLS, ascii_set, percent_encode};
use std::alloc::AllocError;

/// What is escaped of ASCII, beside all bytes that are none.
const ESCAPED: AsciiSet = ascii_set!(CONTROLS.add(b' ').add(b'"').add(b'%').add(b'\\'));

/// Puts a text behind what is there, escaped; a hyphen where it has no bytes.
#[tactic(auto, unfolding(crate::specs::Escape::shown))]
pub(crate) fn put_shown(out: &mut Vec<u8>, text: &[u8]) -> Result<(), AllocError>
    ensures { OnOk result (out.new.items ≡ out.old.items ++ shown text.now) }
{
    match text {
        [] => out.extend_from_slice(b"-"),
        [_, ..] => put_escaped(out, text),
    }
}

/// Puts a text behind what is there, escaped.
pub(crate) fn put_escaped(out: &mut Vec<u8>, text: &[u8]) -> Result<(), AllocError>
    ensures { OnOk result (out.new.items ≡ out.old.items ++ escaped text.now) }
{
    for piece in percent_encode(text, ESCAPED) {
        out.extend_from_slice(piece.as_bytes())?;
    }
    Ok(())
}
