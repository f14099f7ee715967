//! Numbers, by the reader and by the plain program.
use crate::plain::plain_number;
use crate::rows::assert_rows;
use tus_text::read_number;

static NUMBERS: [(&[u8], Option<u64>); 14] = [
    (b"10", Some(10)),
    (b"0", Some(0)),
    (b"00", Some(0)),
    (b"", None),
    (b"+5", None),
    (b"-5", None),
    (b" 5", None),
    (b"5 ", None),
    (b"5, 5", None),
    (b"18446744073709551615", Some(18_446_744_073_709_551_615)),
    (b"18446744073709551616", None),
    (b"18446744073709551620", None),
    (b"123456789012345678901234567890", None),
    (b"0000000000000000000000000000007", Some(7)),
];

fn is_number(text: &[u8], number: Option<u64>) -> bool {
    read_number(text) == number && plain_number(text) == number
}

#[test]
fn numbers(rt: HostRuntime) {
    assert_rows(&rt, &NUMBERS, is_number);
}

#[test]
fn a_number_of_five_thousand_digits(rt: HostRuntime) {
    let mut text = [b'0'; 5000];
    text[4999] = b'7';
    assert!(rt; read_number(&text) == Some(7));
    text[0] = b'1';
    assert!(rt; read_number(&text).is_none());
}
