//! Values of Upload-Metadata, by the reader and by the plain program.
use crate::plain::plain_metadata;
use crate::rows::assert_rows;
use tus_text::check_metadata;

static METADATA: [(&[u8], bool); 25] = [
    (b"a ,b", true),
    (b"a YQ==,b", true),
    (b"filename d29ybGQucGRm,is_confidential", true),
    (b" a YQ== , b ", true),
    (b"a\t", true),
    (b"a YQ==,A YQ==", true),
    (b"a,a\t", true),
    (b"a YWI=", true),
    (b"a YWJj", true),
    (b"", false),
    (b" ", false),
    (b"a,,b", false),
    (b",a", false),
    (b"a,", false),
    (b"a YQ==,a", false),
    (b"a, a ", false),
    (b"a,b,c,b", false),
    (b"a YQ", false),
    (b"a YR==", false),
    (b"a YWJ=", false),
    (b"a YQ=a", false),
    (b"a YQ==\t", false),
    (b"a  YQ==", false),
    (b"a YQ== YQ==", false),
    (b"a\tYQ==,a\tYQ==", false),
];

fn is_metadata(text: &[u8], is_some: bool) -> bool {
    check_metadata(text) == is_some && plain_metadata(text) == is_some
}

#[test]
fn metadata(rt: HostRuntime) {
    assert_rows(&rt, &METADATA, is_metadata);
}

static MANY_BYTES: [u8; 1_025] = [b'a'; 1_025];

#[test]
fn metadata_of_many_bytes(rt: HostRuntime) {
    assert!(rt; is_metadata(&MANY_BYTES[1..], true));
    assert!(rt; is_metadata(&MANY_BYTES, false));
}

// 341 keys of two letters, `aa` to `nc`, with commas between them.
fn many_keys() -> [u8; 1022] {
    let mut text = [b','; 1022];
    for key in 0..341usize {
        text[3 * key] = b'a' + (key / 26) as u8;
        text[3 * key + 1] = b'a' + (key % 26) as u8;
    }
    text
}

#[test]
fn metadata_of_many_keys(rt: HostRuntime) {
    let mut text = many_keys();
    assert!(rt; check_metadata(&text));
    text[1020] = b'a';
    text[1021] = b'b';
    assert!(rt; !check_metadata(&text));
}
