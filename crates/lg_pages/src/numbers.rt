//! Whole numbers in decimal, of any length and without leading zeros.

ghost use Rattle.std.specs.Prelude.{◌≡◌, ℕ, ◌≤◌, min, true, MatchOption};
ghost use Rattle.std.specs.Str.{all_ascii_digits};
ghost use Rattle.std.specs.Str.Parse.{digits_value};
ghost use Rattle.lg_readings.specs.Parameters.{IsNumberText};

fn are_digits(bytes: &[u8]) -> bool
    ensures { result ≡ all_ascii_digits bytes.now }
{
    for byte in bytes {
        if !byte.is_ascii_digit() {
            return false;
        }
    }
    true
}

/// The number that digits write, or the limit where the number is larger.
fn digits_up_to(digits: &[u8], limit: u64) -> u64
    requires digits { all_ascii_digits digits.now ≡ true }
    requires small { limit ≤ 4294967296 }
    ensures { result ≡ min (digits_value 10 digits.now) limit }
{
    let mut number: u64 = 0;
    for digit in digits {
        number = (number * 10 + u64::from(*digit - b'0')).min(limit);
    }
    number
}

/// The number whose text the bytes are, or the limit where the number is larger; none where they are the text of no number.
pub fn number_up_to(bytes: &[u8], limit: u64) -> Option<u64>
    requires { limit ≤ 4294967296 }
    ensures { MatchOption result ((n : ℕ) → ¬ (IsNumberText bytes.now n)) (λ read. IsNumberText bytes.now (digits_value 10 bytes.now) × (read ≡ min (digits_value 10 bytes.now) limit)) }
{
    if bytes.is_empty() {
        return None;
    }
    if bytes[0] == b'0' && bytes.len() > 1 {
        return None;
    }
    if !are_digits(bytes) {
        return None;
    }
    Some(digits_up_to(bytes, limit))
}
