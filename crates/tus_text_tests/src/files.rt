//! What metadata tells under a key, and media types.
ghost use Rattle.std.specs.Prelude.{◌<◌};

use crate::rows::assert_rows;
use tus_text::{is_media_type, type_name, value_under};

static VALUES: [(&[u8], Option<&[u8]>); 10] = [
    (b"filename d29ybGQucGRm,is_confidential", Some(b"world.pdf")),
    (b" other YQ== , filename YWI= ", Some(b"ab")),
    (b"filename YQ==,filename YWI=", Some(b"a")),
    (b"a YQ==,filename", Some(b"")),
    (b"filename ", Some(b"")),
    (b"Filename YQ==", None),
    (b"filename2 YQ==", None),
    (b"filename YQ", None),
    (b"filename YQ== YQ==", None),
    (b"", None),
];

// Whether the metadata tells this under the key, or nothing.
fn tells(metadata: &[u8], told: Option<&[u8]>) -> bool {
    match (value_under(metadata, b"filename"), told) {
        (Some(value), Some(told)) => value.as_slice() == told,
        (None, None) => true,
        _ => false,
    }
}

#[test]
fn values_under_a_key(rt: HostRuntime) {
    assert_rows(&rt, &VALUES, tells);
}

static TYPES: [(&[u8], bool); 20] = [
    (b"text/plain", true),
    (b"image/svg+xml", true),
    (b"text/html;charset=utf-8", true),
    (b"text/html ; charset=utf-8; q=1", true),
    (b"text/html;", true),
    (b"text/html; ;a=b", true),
    (b" text/html ", true),
    (b"", false),
    (b"text", false),
    (b"/", false),
    (b"text/", false),
    (b"/html", false),
    (b"text/ html", false),
    (b"text/html/5", false),
    (b"text/html,text/plain", false),
    (b"text/html;charset", false),
    (b"text/html;charset=", false),
    (b"text/html;charset=\"utf-8\"", false),
    (b"text/html\r\nX: y", false),
    (b"text/h\xc3\xa4", false),
];

fn is_media(text: &[u8], is_some: bool) -> bool {
    is_media_type(text) == is_some
}

#[test]
fn media_types(rt: HostRuntime) {
    assert_rows(&rt, &TYPES, is_media);
}

// A letter, a slash and letters up to so many bytes.
fn type_of<const N: usize>() -> [u8; N]
    requires { 1 < N }
{
    let mut text = [b'a'; N];
    text[1] = b'/';
    text
}

#[test]
fn media_types_of_many_bytes(rt: HostRuntime) {
    assert!(rt; is_media_type(&type_of::<255>()));
    assert!(rt; !is_media_type(&type_of::<256>()));
    assert_eq!(&rt; type_name(b"Text/HTML ; a=b"), b"Text/HTML".as_slice());
}
