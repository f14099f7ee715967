//! What a reply to a GET tells of the file that an upload is, by its metadata.
ghost use Rattle.std.specs.Prelude.{◌≡◌, ◌+◌, ◌≤◌, ◌++◌, codes, length};
ghost use Rattle.std.specs.List.{list_all};
ghost use Rattle.http_wire.specs.File.{disposition, disposition_type, file_type, is_file_name, is_one_of, is_quotable, is_shown, is_unreserved, shown_films, shown_images, shown_sounds, name_parameter, name_told};
ghost use Rattle.http_wire.specs.ReplyText.{line};
ghost use Rattle.tus_text.specs.Escape.{escaped_unless};
ghost use Rattle.tus_text.specs.Pair.{value_under};

use crate::write::page::{FILE_MAX, Page, SHORT_MAX};
use percent_encoding::{AsciiSet, NON_ALPHANUMERIC, ascii_set, percent_encode};
use tus_text::{METADATA_MAX, Text, is_media_type, type_name, value_under};

/// The type of a file of which none is told (RFC 9110, section 8.3).
pub const ANY_TYPE: &[u8] = b"application/octet-stream";

// The most bytes of the name of a file.
const FILE_NAME_MAX: usize = 255;

// What is escaped of ASCII in an extended value: all but what is unreserved (RFC 3986, section 2.3).
const ESCAPED: AsciiSet = ascii_set!(
    NON_ALPHANUMERIC
        .remove(b'-')
        .remove(b'.')
        .remove(b'_')
        .remove(b'~')
);

/// The type of the file of this metadata: what it has under `filetype`, where that is a media type, else [`ANY_TYPE`]. The
/// metadata's text is decoded to `told`.
pub fn file_type<'a>(metadata: &[u8], told: &'a mut Text<METADATA_MAX>) -> &'a [u8]
    ensures text { result.now ≡ file_type metadata.now }
    ensures len { length result.now ≤ 255 }
{
    let Some(text) = value_under(metadata, b"filetype") else {
        return ANY_TYPE;
    };
    if !is_media_type(text.as_slice()) {
        return ANY_TYPE;
    }
    *told = text;
    told.as_slice()
}

/// Puts the line that tells a browser what to do with a file of this type, and its name: what the metadata has under
/// `filename`, where that is a name of 1 to 255 bytes of UTF-8 (RFC 6266).
#[tactic(auto, unfolding(crate::specs::ReplyText::line))]
pub fn put_disposition(page: &mut Page, media: &[u8], metadata: &[u8])
    requires { length page.old + FILE_MAX ≤ SHORT_MAX }
    ensures text { page.new ≡ page.old ++ line (codes "Content-Disposition") (disposition media.now metadata.now) }
    ensures len { length page.new ≤ length page.old + 817 }
{
    page.put(b"Content-Disposition: ");
    page.put(disposition_type(media));
    put_name(page, metadata);
    page.put(b"\r\n");
}

// Whether a browser shows a file of this type or saves it.
fn disposition_type(media: &[u8]) -> &'static [u8]
    ensures text { result.now ≡ disposition_type media.now }
    ensures len { length result.now ≤ 10 }
{
    if is_shown(media) {
        b"inline"
    } else {
        b"attachment"
    }
}

// Whether a file of this type may be shown in a browser's window.
fn is_shown(media: &[u8]) -> bool
    ensures { result ≡ is_shown media.now }
{
    let name = type_name(media);
    name.eq_ignore_ascii_case(b"text/plain")
        || is_shown_image(name)
        || is_shown_sound(name)
        || is_shown_film(name)
}

fn is_shown_image(name: &[u8]) -> bool
    ensures { result ≡ is_one_of shown_images name.now }
{
    name.eq_ignore_ascii_case(b"image/avif")
        || name.eq_ignore_ascii_case(b"image/bmp")
        || name.eq_ignore_ascii_case(b"image/gif")
        || name.eq_ignore_ascii_case(b"image/jpeg")
        || name.eq_ignore_ascii_case(b"image/png")
        || name.eq_ignore_ascii_case(b"image/webp")
}

fn is_shown_sound(name: &[u8]) -> bool
    ensures { result ≡ is_one_of shown_sounds name.now }
{
    name.eq_ignore_ascii_case(b"audio/aac")
        || name.eq_ignore_ascii_case(b"audio/flac")
        || name.eq_ignore_ascii_case(b"audio/mp4")
        || name.eq_ignore_ascii_case(b"audio/mpeg")
        || name.eq_ignore_ascii_case(b"audio/ogg")
        || name.eq_ignore_ascii_case(b"audio/wav")
        || name.eq_ignore_ascii_case(b"audio/webm")
}

fn is_shown_film(name: &[u8]) -> bool
    ensures { result ≡ is_one_of shown_films name.now }
{
    name.eq_ignore_ascii_case(b"video/mp4")
        || name.eq_ignore_ascii_case(b"video/ogg")
        || name.eq_ignore_ascii_case(b"video/webm")
}

// The parameter of the name that the metadata tells, where it is one.
fn put_name(page: &mut Page, metadata: &[u8])
    requires { length page.old + 784 ≤ SHORT_MAX }
    ensures text { page.new ≡ page.old ++ name_told (value_under (codes "filename") metadata.now) }
    ensures len { length page.new ≤ length page.old + 784 }
{
    let Some(name) = value_under(metadata, b"filename") else {
        return;
    };
    if is_file_name(name.as_slice()) {
        put_name_parameter(page, name.as_slice());
    }
}

// Whether `name` has 1 to 255 bytes of UTF-8.
fn is_file_name(name: &[u8]) -> bool
    ensures { result ≡ is_file_name name.now }
{
    !name.is_empty() && name.len() <= FILE_NAME_MAX && std::str::from_utf8(name).is_ok()
}

// The parameter that tells a name.
fn put_name_parameter(page: &mut Page, name: &[u8])
    requires room { length page.old + 784 ≤ SHORT_MAX }
    requires name { length name.now ≤ 255 }
    ensures text { page.new ≡ page.old ++ name_parameter name.now }
    ensures len { length page.new ≤ length page.old + 784 }
{
    if are_quotable(name) {
        page.put(b"; filename=\"");
        page.put(name);
        page.put(b"\"");
    } else {
        page.put(b"; filename*=UTF-8''");
        put_escaped(page, name);
    }
}

// Whether no byte of a name needs an escape within quotes.
fn are_quotable(name: &[u8]) -> bool
    ensures { result ≡ list_all is_quotable name.now }
{
    name.iter().all(|byte| is_quotable(*byte))
}

// Whether `byte` needs no escape within quotes.
fn is_quotable(byte: u8) -> bool
    ensures { result ≡ is_quotable byte }
{
    (32..=126).contains(&byte) && byte != b'"' && byte != b'%' && byte != b'\\'
}

// A name, escaped for an extended value.
fn put_escaped(page: &mut Page, name: &[u8])
    requires room { length page.old + 765 ≤ SHORT_MAX }
    requires name { length name.now ≤ 255 }
    ensures text { page.new ≡ page.old ++ escaped_unless is_unreserved name.now }
    ensures len { length page.new ≤ length page.old + 765 }
{
    for piece in percent_encode(name, ESCAPED) {
        page.put(piece.as_bytes());
    }
}
