ghost use Rattle.std.specs.Prelude.{◌≡◌, ◌≢◌, ◌⊎◌, ◌↔◌, ℕ, ℤ, pos, neg_ℤ, ◌+◌, ◌-◌, ◌*◌, ◌+ℤ◌, ◌-ℤ◌, ◌*ℤ◌, ◌≤◌, ◌<◌, length, List, [], ◌∷◌, ◌++◌, All, IsTrue, IsSome, OnSome, IfOk, IfSome, OnErr, slice_index};
ghost use Rattle.jiff_core.specs.Calendar.{days_from_civil, IsBetween};
ghost use Rattle.std.specs.Char.{IsAsciiDigit};
ghost use Rattle.lg_time.specs.Texts.{two_digits, IsCalendarDate};
ghost use Rattle.lg_time.specs.Moment.{IsMoment, IsDate, IsTime, IsEnd, IsFraction, IsZone, IsOffset, rounded};

use crate::range::is_moment;
use jiff_core::civil::Date;
use thiserror::Error;

/// A text that is no moment.
#[derive(Clone, Copy, Debug, PartialEq, Eq, Error)]
#[error("not a moment in the form of RFC 3339")]
pub struct BadMoment;

/// The microseconds of a day.
const DAY: i64 = 86_400_000_000;

/// The moment that a text stands for, to the nearest microsecond.
///
/// The text is one of RFC 3339: `YYYY-MM-DD`, `T` or `t`, `hh:mm:ss`, a fraction of any length
/// or none, and `Z`, `z` or an offset. A second 60 is refused, and so is a moment that lies
/// outside the years 0001 to 9999 once the offset is taken off and the fraction is rounded.
pub fn read_moment(bytes: &[u8]) -> Result<i64, BadMoment>
    ensures value { IfOk result (IsMoment bytes.now) }
    ensures only { (moment : ℤ) → IsMoment bytes.now moment → result ≡ Ok moment }
    ensures none { OnErr result ((moment : ℤ) → ¬ (IsMoment bytes.now moment)) }
{
    match moment_of(bytes) {
        Some(moment) => Ok(moment),
        None => Err(BadMoment),
    }
}

fn moment_of(bytes: &[u8]) -> Option<i64>
    ensures value { IfSome result (IsMoment bytes.now) }
    ensures only { (moment : ℤ) → IsMoment bytes.now moment → result ≡ Some moment }
{
    if bytes.len() < 19 {
        return None;
    }
    let (date, after_date) = bytes.split_at(10);
    let (time, rest) = after_date.split_at(9);
    let number = read_date(date)?;
    let seconds = read_time(time)?;
    let added = read_end(rest)?;
    let moment = moment_at(number, seconds, added);
    if is_moment(moment) {
        Some(moment)
    } else {
        None
    }
}

/// The moment of a day and a time of day, and what is added to them.
fn moment_at(number: i64, seconds: u32, added: i64) -> i64
    requires number_in { IsBetween (neg_ℤ (pos 4371587)) (pos 2932896) number }
    requires seconds_in { seconds < 86400 }
    requires added_in { IsBetween (neg_ℤ (pos 100000000000)) (pos 100000000000) added }
    ensures { result ≡ number *ℤ pos 86400000000 +ℤ pos (seconds * 1000000) +ℤ added }
{
    number * DAY + i64::from(seconds) * 1_000_000 + added
}

/// The number of two decimal digits.
fn read_two_digits(tens: u8, ones: u8) -> Option<u8>
    ensures value { IfSome result (λ n. (n ≤ 99) × (two_digits n ≡ tens ∷ ones ∷ [])) }
    ensures only { (n : ℕ) → n ≤ 99 → two_digits n ≡ tens ∷ ones ∷ [] → result ≡ Some n }
{
    if tens.is_ascii_digit() && ones.is_ascii_digit() {
        Some((tens - b'0') * 10 + (ones - b'0'))
    } else {
        None
    }
}

/// The days from 1970-01-01 to a date.
fn read_date(text: &[u8]) -> Option<i64>
    ensures value { IfSome result (IsDate text.now) }
    ensures bound { IfSome result (IsBetween (neg_ℤ (pos 4371587)) (pos 2932896)) }
    ensures only { (number : ℤ) → IsDate text.now number → result ≡ Some number }
{
    let [y1, y2, y3, y4, b'-', m1, m2, b'-', d1, d2] = text else {
        return None;
    };
    let century = read_two_digits(*y1, *y2)?;
    let of_century = read_two_digits(*y3, *y4)?;
    let month = read_two_digits(*m1, *m2)?;
    let day = read_two_digits(*d1, *d2)?;
    let year = u16::from(century) * 100 + u16::from(of_century);
    Some(i64::from(day_number(year, month, day)?))
}

/// The seconds since midnight.
fn read_time(text: &[u8]) -> Option<u32>
    ensures value { IfSome result (IsTime text.now) }
    ensures bound { IfSome result (λ n. n < 86400) }
    ensures only { (seconds : ℕ) → IsTime text.now seconds → result ≡ Some seconds }
{
    let [b'T' | b't', h1, h2, b':', m1, m2, b':', s1, s2] = text else {
        return None;
    };
    let hour = read_two_digits(*h1, *h2)?;
    let minute = read_two_digits(*m1, *m2)?;
    let second = read_two_digits(*s1, *s2)?;
    if hour > 23 || minute > 59 || second > 59 {
        return None;
    }
    Some((u32::from(hour) * 60 + u32::from(minute)) * 60 + u32::from(second))
}

/// The microseconds of a fraction less those of the offset that follows it.
fn read_end(text: &[u8]) -> Option<i64>
    ensures value { IfSome result (IsEnd text.now) }
    ensures bound { IfSome result (IsBetween (neg_ℤ (pos 100000000000)) (pos 100000000000)) }
    ensures only { (added : ℤ) → IsEnd text.now added → result ≡ Some added }
{
    let zone_len = zone_len(text);
    if text.len() < zone_len {
        return None;
    }
    let (fraction, zone) = text.split_at(text.len() - zone_len);
    let microseconds = read_fraction(fraction)?;
    let ahead = read_zone(zone)?;
    Some(added_by(microseconds, ahead))
}

/// The microseconds of a fraction less those of an offset.
fn added_by(microseconds: u32, ahead: i32) -> i64
    requires fraction_in { microseconds ≤ 1000000 }
    requires offset_in { IsBetween (neg_ℤ (pos 1439)) (pos 1439) ahead }
    ensures value { result ≡ pos microseconds -ℤ ahead *ℤ pos 60000000 }
    ensures bound { IsBetween (neg_ℤ (pos 100000000000)) (pos 100000000000) result }
{
    i64::from(microseconds) - i64::from(ahead) * 60_000_000
}

/// How many bytes the zone at the end of a text has, if there is one.
fn zone_len(text: &[u8]) -> usize
    ensures bound { result ≤ 6 }
    ensures only { (fraction zone : List ℕ) (ahead : ℤ) → text.now ≡ fraction ++ zone → IsZone zone ahead → length zone ≡ result }
{
    match text.last() {
        Some(b'Z' | b'z') => 1,
        _ => 6,
    }
}

/// The minutes by which a zone is ahead of UTC.
fn read_zone(text: &[u8]) -> Option<i32>
    ensures value { IfSome result (IsZone text.now) }
    ensures bound { IfSome result (IsBetween (neg_ℤ (pos 1439)) (pos 1439)) }
    ensures only { (ahead : ℤ) → IsZone text.now ahead → result ≡ Some ahead }
{
    match text {
        [b'Z' | b'z'] => Some(0),
        [sign, h1, h2, b':', m1, m2] => {
            let minutes = read_offset(*h1, *h2, *m1, *m2)?;
            signed(*sign, minutes)
        }
        _ => None,
    }
}

/// The minutes of an offset with its sign.
fn signed(sign: u8, minutes: u16) -> Option<i32>
    requires { minutes < 1440 }
    ensures east { sign ≡ 43 → result ≡ Some (pos minutes) }
    ensures west { sign ≡ 45 → result ≡ Some (neg_ℤ (pos minutes)) }
    ensures other { OnSome result ((sign ≡ 43) ⊎ (sign ≡ 45)) }
    ensures bound { IfSome result (IsBetween (neg_ℤ (pos 1439)) (pos 1439)) }
{
    match sign {
        b'+' => Some(i32::from(minutes)),
        b'-' => Some(-i32::from(minutes)),
        _ => None,
    }
}

/// The minutes of `hh:mm`, of its four digits.
fn read_offset(h1: u8, h2: u8, m1: u8, m2: u8) -> Option<u16>
    ensures value { IfSome result (IsOffset (h1 ∷ h2 ∷ 58 ∷ m1 ∷ m2 ∷ [])) }
    ensures bound { IfSome result (λ n. n < 1440) }
    ensures only { (minutes : ℕ) → IsOffset (h1 ∷ h2 ∷ 58 ∷ m1 ∷ m2 ∷ []) minutes → result ≡ Some minutes }
{
    let hour = read_two_digits(h1, h2)?;
    let minute = read_two_digits(m1, m2)?;
    if hour > 23 || minute > 59 {
        return None;
    }
    Some(u16::from(hour) * 60 + u16::from(minute))
}

/// The microseconds of a fraction, rounded to the nearest.
fn read_fraction(text: &[u8]) -> Option<u32>
    ensures value { IfSome result (IsFraction text.now) }
    ensures bound { IfSome result (λ n. n ≤ 1000000) }
    ensures only { (microseconds : ℕ) → IsFraction text.now microseconds → result ≡ Some microseconds }
{
    match text {
        [] => Some(0),
        [b'.', digits @ ..] if are_digits(digits) => Some(round(digits)),
        _ => None,
    }
}

/// Whether a text has one or more decimal digits, and nothing else.
fn are_digits(text: &[u8]) -> bool
    ensures { IsTrue result ↔ ((text.now ≢ []) × All IsAsciiDigit text.now) }
{
    !text.is_empty() && text.iter().all(|byte| byte.is_ascii_digit())
}

fn round(digits: &[u8]) -> u32
    requires { All IsAsciiDigit digits.now }
    ensures value { result ≡ rounded digits.now }
    ensures bound { result ≤ 1000000 }
{
    let thousands = digit_at(digits, 0) * 100 + digit_at(digits, 1) * 10 + digit_at(digits, 2);
    let ones = digit_at(digits, 3) * 100 + digit_at(digits, 4) * 10 + digit_at(digits, 5);
    let up = u32::from(digit_at(digits, 6) >= 5);
    thousands * 1000 + ones + up
}

/// The value of a digit, 0 past the last.
fn digit_at(digits: &[u8], place: usize) -> u32
    requires { All IsAsciiDigit digits.now }
    ensures value { result ≡ slice_index digits.now place - 48 }
    ensures bound { result ≤ 9 }
{
    match digits.get(place) {
        Some(digit) => u32::from(*digit - b'0'),
        None => 0,
    }
}

/// The days from 1970-01-01 to a date, if the calendar has it and its year is 0001 to 9999.
fn day_number(year: u16, month: u8, day: u8) -> Option<i32>
    requires year_in { year ≤ 9999 }
    requires month_in { month ≤ 99 }
    requires day_in { day ≤ 99 }
    ensures exists { OnSome result (IsCalendarDate year month day) }
    ensures value { IfSome result (λ number. number ≡ days_from_civil (pos year) month day) }
    ensures bound { IfSome result (IsBetween (neg_ℤ (pos 4371587)) (pos 2932896)) }
    ensures only { IsCalendarDate year month day → IsSome result }
{
    if year == 0 {
        return None;
    }
    match Date::new(year as i16, month as i8, day as i8) {
        Ok(date) => Some(date.to_unix_epoch_day()),
        Err(_) => None,
    }
}
