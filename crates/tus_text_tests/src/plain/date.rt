//! A plain program for `expires_text`.
ghost use Rattle.std.specs.Prelude.{◌≡◌, ◌<◌, ◌≤◌, ◌+◌, ◌/◌, ◌%◌};
ghost use Rattle.httpdate.specs.Calendar.{IsCivilDate, days_from_civil, days_in_month, weekday};
ghost use Rattle.httpdate.specs.Text.{day_name, month_name, imf_fixdate};
ghost use Rattle.tus_text.specs.Date.{expires_text};

// A day of the calendar. Monday is weekday 1.
#[derive(Clone, Copy)]
struct CalendarDay {
    year: u64,
    month: u64,
    day: u64,
    weekday: u64,
}

// The days of a month.
fn days_in_month(year: u64, month: u64) -> u64
    ensures { result ≡ days_in_month year month }
{
    match month {
        2 => {
            if year % 4 == 0 && (year % 100 != 0 || year % 400 == 0) {
                29
            } else {
                28
            }
        }
        4 | 6 | 9 | 11 => 30,
        _ => 31,
    }
}

// The day after `today`.
fn next_day(today: CalendarDay) -> CalendarDay
    requires civil { IsCivilDate today.year today.month today.day }
    requires last { days_from_civil today.year today.month today.day + 1 < 2_932_897 }
    requires weekday { today.weekday ≤ 7 }
    ensures civil { IsCivilDate result.year result.month result.day }
    ensures next { days_from_civil result.year result.month result.day
        ≡ days_from_civil today.year today.month today.day + 1 }
    ensures weekday { result.weekday ≡ today.weekday % 7 + 1 }
{
    let CalendarDay {
        year,
        month,
        day,
        weekday,
    } = today;
    let weekday = weekday % 7 + 1;
    if day < days_in_month(year, month) {
        return CalendarDay {
            year,
            month,
            day: day + 1,
            weekday,
        };
    }
    if month < 12 {
        return CalendarDay {
            year,
            month: month + 1,
            day: 1,
            weekday,
        };
    }
    CalendarDay {
        year: year + 1,
        month: 1,
        day: 1,
        weekday,
    }
}

// The first three letters of a weekday's name.
fn day_name(weekday: u64) -> [u8; 3]
    requires low { 1 ≤ weekday }
    requires high { weekday ≤ 7 }
    ensures { result ≡ day_name weekday }
{
    match weekday {
        1 => *b"Mon",
        2 => *b"Tue",
        3 => *b"Wed",
        4 => *b"Thu",
        5 => *b"Fri",
        6 => *b"Sat",
        _ => *b"Sun",
    }
}

// The first three letters of a month's name.
fn month_name(month: u64) -> [u8; 3]
    requires low { 1 ≤ month }
    requires high { month ≤ 12 }
    ensures { result ≡ month_name month }
{
    match month {
        1 => *b"Jan",
        2 => *b"Feb",
        3 => *b"Mar",
        4 => *b"Apr",
        5 => *b"May",
        6 => *b"Jun",
        7 => *b"Jul",
        8 => *b"Aug",
        9 => *b"Sep",
        10 => *b"Oct",
        11 => *b"Nov",
        _ => *b"Dec",
    }
}

// The digit of a number below 10.
fn digit(value: u64) -> u8
    requires { value < 10 }
    ensures { result ≡ 48 + value }
{
    b'0' + value as u8
}

// The day, and the second of it, as an IMF-fixdate.
fn print_date(today: CalendarDay, secs: u64) -> [u8; 29]
    requires civil { IsCivilDate today.year today.month today.day }
    requires low { 1 ≤ today.weekday }
    requires high { today.weekday ≤ 7 }
    requires within { secs < 86400 }
    ensures { result ≡ imf_fixdate (record {
      year = today.year;
      mon = today.month;
      day = today.day;
      hour = secs / 3600;
      min = secs % 3600 / 60;
      sec = secs % 60;
      wday = today.weekday;
    }) }
{
    let [w0, w1, w2] = day_name(today.weekday);
    let [m0, m1, m2] = month_name(today.month);
    let (century, year) = (today.year / 100, today.year % 100);
    let (hour, min, sec) = (secs / 3600, secs % 3600 / 60, secs % 60);
    [
        w0,
        w1,
        w2,
        b',',
        b' ',
        digit(today.day / 10),
        digit(today.day % 10),
        b' ',
        m0,
        m1,
        m2,
        b' ',
        digit(century / 10),
        digit(century % 10),
        digit(year / 10),
        digit(year % 10),
        b' ',
        digit(hour / 10),
        digit(hour % 10),
        b':',
        digit(min / 10),
        digit(min % 10),
        b':',
        digit(sec / 10),
        digit(sec % 10),
        b' ',
        b'G',
        b'M',
        b'T',
    ]
}

/// The IMF-fixdate of `secs` seconds since 1970, by counting its days one at a time.
pub fn plain_expires(secs: u64) -> [u8; 29]
    requires { secs ≤ 253402300799 }
    ensures { result ≡ expires_text secs }
{
    let mut today = CalendarDay {
        year: 1970,
        month: 1,
        day: 1,
        weekday: 4,
    };
    for _day in 0..secs / 86_400 {
        today = next_day(today);
    }
    print_date(today, secs % 86_400)
}
