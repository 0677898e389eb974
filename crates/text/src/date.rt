// Dates and times.
ghost use Rattle.std.specs.Prelude.{◌≡◌, ◌≤◌};
ghost use Rattle.text.specs.Rules.{leap, days, real_day, date, clock, time};

use profile::Flaw;

// A year with a 29 February.
pub fn is_leap(year: u64) -> bool
    ensures { result ≡ leap year }
{
    year % 4 == 0 && (year % 100 != 0 || year % 400 == 0)
}

// The days of a month, counted from 1.
pub fn days_of(year: u64, month: u64) -> u64
    requires { (1 ≤ month) × (month ≤ 12) }
    ensures { result ≡ days year month }
{
    match month {
        4 | 6 | 9 | 11 => 30,
        2 if is_leap(year) => 29,
        2 => 28,
        _ => 31,
    }
}

// A real Gregorian day, years 1900 to 2099.
pub fn is_real_day(year: u64, month: u64, day: u64) -> bool
    ensures { result ≡ real_day year month day }
{
    (1900..=2099).contains(&year)
        && (1..=12).contains(&month)
        && (1..=days_of(year, month)).contains(&day)
}

// YYYY-MM-DD.
pub fn date(text: &[u8]) -> Result<u64, Flaw>
    ensures { result ≡ date text.now }
{
    if !marks::has_shape(text, b"DDDD-DD-DD") {
        return Err(Flaw::Date);
    }
    let year = marks::number(&text[..4]);
    let month = marks::number(&text[5..7]);
    let day = marks::number(&text[8..10]);
    if !is_real_day(year, month, day) {
        return Err(Flaw::Date);
    }
    Ok(year * 10000 + month * 100 + day)
}

// Thh:mm:ss.
fn is_clock(text: &[u8]) -> bool
    ensures { result ≡ clock text.now }
{
    marks::has_shape(text, b"TDD:DD:DD")
        && marks::number(&text[1..3]) <= 23
        && marks::number(&text[4..6]) <= 59
        && marks::number(&text[7..]) <= 59
}

// CreDtTm: a date, then `T` and a time of day.
pub fn time(text: &[u8]) -> Result<u64, Flaw>
    ensures { result ≡ time text.now }
{
    let Some((day, clock)) = text.split_at_checked(10) else {
        return Err(Flaw::Date);
    };
    date(day)?;
    if !is_clock(clock) {
        return Err(Flaw::Date);
    }
    Ok(0)
}
