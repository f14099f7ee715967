ghost use Rattle.std.specs.Prelude.{◌≡◌};
ghost use Rattle.tus_steps.specs.Field.{text_of};
ghost use Rattle.http_wire.specs.ConnectionFields.{is_close, has_close, asks_to_continue};

use tus_steps::{Field, trim_blanks};

/// Whether the value of a Connection field has the token `close`.
pub fn has_close(value: &[u8]) -> bool
    ensures { result ≡ has_close value.now }
{
    value
        .split(|byte| *byte == b',')
        .any(|token| is_close(token))
}

/// Whether the Expect field is one `100-continue`. Any other is ignored.
pub fn asks_to_continue(expect: Field<'_>) -> bool
    ensures { result ≡ asks_to_continue (text_of expect.entry) }
{
    match expect {
        Field::One(value) => value.eq_ignore_ascii_case(b"100-continue"),
        Field::Absent | Field::Many => false,
    }
}

fn is_close(token: &[u8]) -> bool
    ensures { result ≡ is_close token.now }
{
    trim_blanks(token).eq_ignore_ascii_case(b"close")
}
