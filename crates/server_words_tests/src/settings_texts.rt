//! Texts of settings, and the settings that they give.
use server_words::{read_settings, settings_text};

/// A text of settings, and the text of the settings that it gives, where it gives some.
type Row = (&'static str, Option<&'static str>);

static ROWS: [Row; 20] = [
    (
        "acme:16MiB\n",
        Some(
            "--blocks\n4096\n--block-size\n4096\n--lifetime\n86400\n--max-size\n1048576\n--uploads\n64\n--\nacme:4096\n",
        ),
    ),
    (
        "--uploads\n1\n--block-size\n65536\nbolt:0\n--blocks\n16384\n--lifetime\n1\n--max-size\n16777216\n7-x:256MiB",
        Some(
            "--blocks\n16384\n--block-size\n65536\n--lifetime\n1\n--max-size\n16777216\n--uploads\n1\n--\nbolt:0\n7-x:4096\n",
        ),
    ),
    (
        "--blocks\n1048576\n--block-size\n1024\n--lifetime\n31536000\n--max-size\n1\n--uploads\n64\n--\n-a:1\n--:2\n-:1048573\n",
        Some(
            "--blocks\n1048576\n--block-size\n1024\n--lifetime\n31536000\n--max-size\n1\n--uploads\n64\n--\n-a:1\n--:2\n-:1048573\n",
        ),
    ),
    (
        "--max-size\n1099511627776\nacme:8\n",
        Some(
            "--blocks\n4096\n--block-size\n4096\n--lifetime\n86400\n--max-size\n1099511627776\n--uploads\n64\n--\nacme:8\n",
        ),
    ),
    (
        "--uploads\n65536\nacme:8\n",
        Some(
            "--blocks\n4096\n--block-size\n4096\n--lifetime\n86400\n--max-size\n1048576\n--uploads\n65536\n--\nacme:8\n",
        ),
    ),
    (
        "--finished-lifetime\n604800\nacme:8\n",
        Some(
            "--finished-lifetime\n604800\n--blocks\n8\n--block-size\n4096\n--lifetime\n86400\n--max-size\n32768\n--uploads\n1024\n--\nacme:8\n",
        ),
    ),
    (
        "--finished-lifetime\n1\n--blocks\n4096\n--block-size\n4096\n--lifetime\n86400\n--max-size\n1048576\n--uploads\n64\n--\n-a:8\n",
        Some(
            "--finished-lifetime\n1\n--blocks\n4096\n--block-size\n4096\n--lifetime\n86400\n--max-size\n1048576\n--uploads\n64\n--\n-a:8\n",
        ),
    ),
    ("--finished-lifetime\n31536001\nacme:8\n", None),
    ("--lifetime\n1\n--finished-lifetime\n1\nacme:8\n", None),
    ("", None),
    ("\n", None),
    ("acme\n", None),
    ("acme:8\n\n", None),
    ("acme:8 bolt:8\n", None),
    ("acme:8\nacme:9\n", None),
    ("--lifetime\n0\nacme:8\n", None),
    ("--max-size\n1099511627777\nacme:8\n", None),
    ("--uploads\n65537\nacme:8\n", None),
    ("--nothing\nacme:8\n", None),
    ("--help\n", None),
];

fn is_as_wanted(rt: &HostRuntime, row: &Row) -> bool {
    match read_settings(rt.alloc(), row.0) {
        Ok(Some(settings)) => match settings_text(rt.alloc(), &settings) {
            Ok(text) => Some(text.as_slice()) == row.1.map(|wanted| wanted.as_bytes()),
            Err(_) => false,
        },
        Ok(None) => row.1.is_none(),
        Err(_) => false,
    }
}

#[test]
fn texts_of_settings(rt: HostRuntime) {
    for row in &ROWS {
        assert!(rt; is_as_wanted(&rt, row));
    }
}
