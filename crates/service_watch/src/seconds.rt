//! Seconds, written exactly from microseconds.
ghost use Rattle.std.specs.Prelude.{◌≡◌, ◌<◌, ◌≤◌, ◌++◌, OnOk};
ghost use Rattle.service_watch.specs.Seconds.{digits_told, fraction, seconds_text, six_digits};

use crate::put::put_number;
use std::alloc::AllocError;

/// Puts so many microseconds behind what is there, as seconds with no zero at the end.
#[tactic(auto, unfolding(crate::specs::Seconds::seconds_text))]
pub(crate) fn put_seconds(out: &mut Vec<u8>, micros: u64) -> Result<(), AllocError>
    ensures { OnOk result (out.new.items ≡ out.old.items ++ seconds_text micros) }
{
    put_number(out, micros / 1_000_000)?;
    put_fraction(out, (micros % 1_000_000) as u32)
}

// Puts a point and so many millionths, unless there are none.
#[tactic(auto, unfolding(crate::specs::Seconds::fraction))]
fn put_fraction(out: &mut Vec<u8>, millionths: u32) -> Result<(), AllocError>
    requires { millionths < 1_000_000 }
    ensures { OnOk result (out.new.items ≡ out.old.items ++ fraction millionths) }
{
    if millionths == 0 {
        return Ok(());
    }
    let digits = six_digits(millionths);
    out.extend_from_slice(b".")?;
    out.extend_from_slice(&digits[..digits_told(millionths)])
}

#[tactic(auto, unfolding(crate::specs::Seconds::six_digits))]
fn six_digits(millionths: u32) -> [u8; 6]
    requires { millionths < 1_000_000 }
    ensures { result ≡ six_digits millionths }
{
    [
        48 + (millionths / 100_000) as u8,
        48 + (millionths / 10_000 % 10) as u8,
        48 + (millionths / 1_000 % 10) as u8,
        48 + (millionths / 100 % 10) as u8,
        48 + (millionths / 10 % 10) as u8,
        48 + (millionths % 10) as u8,
    ]
}

// How many of the digits stand before the zeros at the end.
fn digits_told(millionths: u32) -> usize
    ensures value { result ≡ digits_told millionths }
    ensures few { result ≤ 6 }
{
    if millionths % 100_000 == 0 {
        1
    } else if millionths % 10_000 == 0 {
        2
    } else if millionths % 1_000 == 0 {
        3
    } else if millionths % 100 == 0 {
        4
    } else if millionths % 10 == 0 {
        5
    } else {
        6
    }
}
