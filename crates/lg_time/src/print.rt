ghost use Rattle.std.specs.Prelude.{◌≡◌, pos, ◌+ℤ◌, unsigned_abs, ◌≤◌, ◌<◌, List, [], ◌∷◌, ◌++◌, take};
ghost use Rattle.std.specs.Int.{IsInRange};
ghost use Rattle.lg_time.specs.Texts.{two_digits as text_of_two, six_digits as text_of_six};
ghost use Rattle.lg_time.specs.Moment.{IsMoment, IsInMoments};
ghost use Rattle.lg_time.specs.Canonical.{date_after, text_of_date, text_of_seconds, text_of_fraction, without_trailing_zeros, moment_text};

use crate::range::FIRST_MOMENT;
use jiff_core::civil::Date;

/// The microseconds of a day.
const DAY: u64 = 86_400_000_000;

/// The days from the first date of `jiff_core` to 0001-01-01.
const BEFORE_YEAR_1: u32 = 3_652_425;

/// Writes the text of a moment, and returns its number of bytes, 20 to 27.
///
/// The text is `YYYY-MM-DDThh:mm:ss`, then a point and the microseconds up to their last digit
/// that is not 0, where there are any, and `Z`. The bytes after it are of no meaning.
pub fn print_moment(moment: i64, into: &mut [u8; 27]) -> usize
    requires { IsInMoments moment }
    ensures bound { IsInRange 20 27 result }
    ensures text { take result into.new ≡ moment_text moment }
    ensures reads_back { IsMoment (take result into.new) moment }
{
    let elapsed = elapsed(moment);
    let microseconds = (elapsed % 1_000_000) as u32;
    let date = date_digits((elapsed / DAY) as u32);
    let time = time_digits((elapsed % DAY / 1_000_000) as u32);
    let fraction = six_digits(microseconds);
    *into = whole_text(&date, &time, &fraction);
    let end = 19 + fraction_len(microseconds, &fraction);
    into[end] = b'Z';
    end + 1
}

/// The microseconds from 0001-01-01T00:00:00Z to a moment.
fn elapsed(moment: i64) -> u64
    requires { IsInMoments moment }
    ensures value { result ≡ unsigned_abs (moment +ℤ pos 62135596800000000) }
    ensures bound { result < 315537897600000000 }
{
    (moment - FIRST_MOMENT) as u64
}

/// The text with all six digits of the fraction.
fn whole_text(date: &[u8; 10], time: &[u8; 8], fraction: &[u8; 6]) -> [u8; 27]
    ensures { result ≡ date.now ++ 84 ∷ (time.now ++ 46 ∷ (fraction.now ++ 90 ∷ [])) }
{
    let [y1, y2, y3, y4, d1, m1, m2, d2, d3, d4] = *date;
    let [h1, h2, c1, n1, n2, c2, s1, s2] = *time;
    let [f1, f2, f3, f4, f5, f6] = *fraction;
    [
        y1, y2, y3, y4, d1, m1, m2, d2, d3, d4, b'T', h1, h2, c1, n1, n2, c2, s1, s2, b'.', f1, f2,
        f3, f4, f5, f6, b'Z',
    ]
}

/// How many bytes the fraction has, with its point.
fn fraction_len(microseconds: u32, digits: &[u8; 6]) -> usize
    requires { digits.now ≡ text_of_six microseconds }
    ensures bound { result ≤ 7 }
    ensures value { take result (46 ∷ digits.now) ≡ text_of_fraction microseconds }
{
    if microseconds == 0 {
        0
    } else {
        significant(digits) + 1
    }
}

/// How many digits stand up to the last that is not 0.
fn significant(digits: &[u8; 6]) -> usize
    ensures bound { result ≤ 6 }
    ensures value { take result digits.now ≡ without_trailing_zeros digits.now }
{
    let mut count = 6;
    while count > 0 && digits[count - 1] == b'0' {
        count -= 1;
    }
    count
}

/// `YYYY-MM-DD` of the date that lies so many days after 0001-01-01.
fn date_digits(days: u32) -> [u8; 10]
    requires { days ≤ 3652058 }
    ensures { result ≡ text_of_date (date_after days) }
{
    let date = date_of(days);
    let year = date.year as u32;
    let [y1, y2] = two_digits(year / 100);
    let [y3, y4] = two_digits(year % 100);
    let [m1, m2] = two_digits(u32::from(date.month));
    let [d1, d2] = two_digits(u32::from(date.day));
    [y1, y2, y3, y4, b'-', m1, m2, b'-', d1, d2]
}

/// The date that lies so many days after 0001-01-01.
fn date_of(days: u32) -> Date
    requires { days ≤ 3652058 }
    ensures year { result.year ≡ pos (date_after days).year }
    ensures month { result.month ≡ (date_after days).month }
    ensures day { result.day ≡ (date_after days).day }
    ensures year_in { (date_after days).year ≤ 9999 }
{
    Date::from_days_since_min(days + BEFORE_YEAR_1)
}

/// `hh:mm:ss` of the seconds since midnight.
fn time_digits(seconds: u32) -> [u8; 8]
    requires { seconds < 86400 }
    ensures { result ≡ text_of_seconds seconds }
{
    let [h1, h2] = two_digits(seconds / 3600);
    let [m1, m2] = two_digits(seconds / 60 % 60);
    let [s1, s2] = two_digits(seconds % 60);
    [h1, h2, b':', m1, m2, b':', s1, s2]
}

fn six_digits(n: u32) -> [u8; 6]
    requires { n < 1000000 }
    ensures { result ≡ text_of_six n }
{
    let [a, b] = two_digits(n / 10_000);
    let [c, d] = two_digits(n % 10_000 / 100);
    let [e, f] = two_digits(n % 100);
    [a, b, c, d, e, f]
}

fn two_digits(n: u32) -> [u8; 2]
    requires { n ≤ 99 }
    ensures { result ≡ text_of_two n }
{
    [b'0' + (n / 10) as u8, b'0' + (n % 10) as u8]
}
