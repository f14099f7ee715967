//! What values of Upload-Checksum say.
use crate::rows::assert_rows;
use tus_text::{Checksum, DIGEST_LEN, read_checksum};

// The digest of `hello`, as sha1sum has it.
const HELLO: [u8; DIGEST_LEN] = [
    0xaa, 0xf4, 0xc6, 0x1d, 0xdc, 0xc5, 0xe8, 0xa2, 0xda, 0xbe, 0xde, 0x0f, 0x3b, 0x48, 0x2c, 0xd9,
    0xae, 0xa9, 0x43, 0x4d,
];

static CHECKSUMS: [(&[u8], Option<Checksum>); 20] = [
    (
        b"sha1 qvTGHdzF6KLavt4PO0gs2a6pQ00=",
        Some(Checksum::Sha1(HELLO)),
    ),
    (b"SHA1 qvTGHdzF6KLavt4PO0gs2a6pQ00=", Some(Checksum::Other)),
    (b"md5 x", Some(Checksum::Other)),
    (b"sha1x x", Some(Checksum::Other)),
    (b"md5  ", Some(Checksum::Other)),
    (b"sha256 not Base64", Some(Checksum::Other)),
    (b"", None),
    (b" ", None),
    (b"sha1", None),
    (b"sha1 ", None),
    (b"md5", None),
    (b"md5 ", None),
    (b" sha1 qvTGHdzF6KLavt4PO0gs2a6pQ00=", None),
    (b"sha1 abc", None),
    (b"sha1  qvTGHdzF6KLavt4PO0gs2a6pQ00=", None),
    (b"sha1 qvTGHdzF6KLavt4PO0gs2a6pQ00= ", None),
    (b"sha1 qvTGHdzF6KLavt4PO0gs2a6pQ00", None),
    (b"sha1 qvTGHdzF6KLavt4PO0gs2a6pQ01=", None),
    (b"sha1 qvTGHdzF6KLavt4PO0gs2a6pQw==", None),
    (b"sha1 qvTGHdzF6KLavt4PO0gs2a6pQ00A", None),
];

fn is_checksum(text: &[u8], checksum: Option<Checksum>) -> bool {
    read_checksum(text) == checksum
}

#[test]
fn checksums(rt: HostRuntime) {
    assert_rows(&rt, &CHECKSUMS, is_checksum);
}
