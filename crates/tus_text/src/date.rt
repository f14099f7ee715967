ghost use Rattle.std.specs.Prelude.{◌≡◌, ◌≤◌, Some, IfSome, IfNone};
ghost use Rattle.httpdate.specs.Date.{unix_secs, date_text, IsDateText};
ghost use Rattle.httpdate.specs.declared.date.HttpDate.{HttpDate as Date};
ghost use Rattle.tus_text.specs.Date.{expires_text, expires_of};

use httpdate::HttpDate;

/// The last second, since 1970, of a date whose year has four digits: 31 December 9999, 23:59:59.
pub const LAST_SECOND: u64 = 253_402_300_799;

/// The IMF-fixdate (RFC 9110, section 5.6.7) of `secs` seconds since 1970, at most [`LAST_SECOND`].
/// [`read_expires`] gives the seconds back.
pub fn write_expires(secs: u64) -> [u8; 29]
    requires { secs ≤ 253402300799 }
    ensures text { result ≡ expires_text secs }
    ensures date { (date : Date) × (unix_secs date ≡ secs) × (result ≡ date_text date) }
    ensures read_back { expires_of result ≡ Some secs }
{
    HttpDate::from_unix_secs(secs).unwrap().to_bytes()
}

/// The seconds since 1970 of the date that `text` shows, in any of the three formats of HTTP
/// (RFC 9110, section 5.6.7), at most [`LAST_SECOND`]. `None` where it shows no date: one in another
/// format, with other bytes round it, with a wrong weekday, or that the calendar does not have.
pub fn read_expires(text: &[u8]) -> Option<u64>
    ensures value { result ≡ expires_of text.now }
    ensures some { IfSome result (λ secs. (date : Date) × IsDateText text.now date × (unix_secs date ≡ secs)) }
    ensures none { IfNone result ((date : Date) → IsDateText text.now date → ⊥) }
    ensures bound { IfSome result (λ secs. secs ≤ 253402300799) }
{
    match HttpDate::parse_ascii(text) {
        Ok(date) => Some(date.unix_secs()),
        Err(_) => None,
    }
}
