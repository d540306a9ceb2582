//! Numbers (RFC 8259, section 6), which have to be whole.
ghost use Rattle.std.specs.Prelude.{◌≡◌, ◌+◌, ◌*◌, ◌<◌, ◌≤◌, true, length, slice_index};
ghost use Rattle.lg_json.specs.Grammar.{signed};
ghost use Rattle.lg_json.specs.Reading as machine;
ghost use Rattle.lg_json.specs.Tokens.{IsNumber, IsNumberByte, DigitsTo, IsDigits, AfterSign};

use crate::json::JsonFault;

/// Above every value that fits.
const TOO_WIDE: u128 = (1 << 127) + 1;

/// The value of the digits with one more, or `TOO_WIDE` where it is above.
pub fn with_digit(number: u128, digit: u8) -> u128
    requires { digit < 10 }
    ensures { result ≡ machine.capped (number * 10 + digit) }
{
    if number > TOO_WIDE / 10 {
        TOO_WIDE
    } else {
        (number * 10 + digit as u128).min(TOO_WIDE)
    }
}

/// Whether the number is from -2^127 to 2^127 - 1.
pub fn fits(negative: bool, number: u128) -> bool
    ensures { result ≡ machine.fits negative number }
{
    if negative {
        number <= 1 << 127
    } else {
        number < 1 << 127
    }
}

/// The number with its sign.
pub fn signed_value(negative: bool, number: u128) -> i128
    requires { machine.fits negative number ≡ true }
    ensures { result ≡ signed negative number }
{
    if !negative {
        number as i128
    } else if number == 1 << 127 {
        i128::MIN
    } else {
        -(number as i128)
    }
}

/// Whether a fraction or an exponent begins.
fn begins_part(byte: u8) -> bool
    ensures { result ≡ machine.begins_part byte }
{
    byte == b'.' || byte == b'e' || byte == b'E'
}

/// The value of the digits of a number from `at` on, of which those before have the value `number`,
/// and the place after them.
fn read_digits(bytes: &[u8], at: usize, first: u128) -> (u128, usize)
    requires { at ≤ length bytes.now }
    ensures { DigitsTo bytes.now at first result.0 result.1 }
{
    let mut number = first;
    let mut end = at;
    while end < bytes.len() {
        match bytes[end] {
            b'0'..=b'9' => {
                number = with_digit(number, bytes[end] - b'0');
                end += 1;
            }
            _ => return (number, end),
        }
    }
    (number, end)
}

/// The number with its sign, whose digits end before `end`.
fn finish_number(
    bytes: &[u8],
    place: usize,
    negative: bool,
    number: u128,
    end: usize,
) -> Result<(i128, usize), JsonFault>
    requires above { place < end }
    requires within { end ≤ length bytes.now }
    requires stands { IsDigits bytes.now place negative number end }
    ensures { IsNumber bytes.now place result }
{
    if end < bytes.len() {
        if begins_part(bytes[end]) {
            return Err(JsonFault::NotWhole { place });
        }
    }
    if !fits(negative, number) {
        return Err(JsonFault::TooWide { place });
    }
    Ok((signed_value(negative, number), end))
}

/// Reads the digits of the number that begins at `place` from `at` on.
fn read_from(
    bytes: &[u8],
    place: usize,
    negative: bool,
    at: usize,
) -> Result<(i128, usize), JsonFault>
    requires above { place ≤ at }
    requires within { at ≤ length bytes.now }
    requires stands { AfterSign bytes.now place negative at }
    ensures { IsNumber bytes.now place result }
{
    if at == bytes.len() {
        return Err(JsonFault::Syntax { place: at });
    }
    match bytes[at] {
        b'0' => finish_number(bytes, place, negative, 0, at + 1),
        b'1'..=b'9' => {
            let (number, end) = read_digits(bytes, at + 1, (bytes[at] - b'0') as u128);
            finish_number(bytes, place, negative, number, end)
        }
        _ => Err(JsonFault::Syntax { place: at }),
    }
}

/// Reads the number that begins at `place` with a minus or a digit: its value, and the place after it.
pub fn read_number(bytes: &[u8], place: usize) -> Result<(i128, usize), JsonFault>
    requires within { place < length bytes.now }
    requires begins { IsNumberByte (slice_index bytes.now place) }
    ensures { IsNumber bytes.now place result }
{
    if bytes[place] == b'-' {
        read_from(bytes, place, true, place + 1)
    } else {
        read_from(bytes, place, false, place)
    }
}
