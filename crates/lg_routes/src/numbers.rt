//! Whole numbers in decimal, without leading zeros.

ghost use Rattle.std.specs.Prelude.{◌≡◌, ℕ, ◌^◌, ◌<◌, false, MatchOption, bytes_eq, decimal};

use crate::bytes::same_bytes;
use itoa::Buffer;
use std::str::from_utf8;

/// The number, where the bytes are its decimal text.
fn number_if(number: u64, bytes: &[u8]) -> Option<u64>
    ensures { MatchOption result (bytes_eq (decimal number) bytes.now ≡ false) (λ n. (n ≡ number) × (bytes.now ≡ decimal n)) }
{
    let mut buffer = Buffer::new();
    if same_bytes(buffer.format(number).as_bytes(), bytes) {
        Some(number)
    } else {
        None
    }
}

fn number_of_text(text: &str) -> Option<u64>
    ensures { MatchOption result ((n : ℕ) → n < 2 ^ 64 → ¬ (text.now ≡ decimal n)) (λ n. text.now ≡ decimal n) }
{
    match text.parse::<u64>() {
        Ok(number) => number_if(number, text.as_bytes()),
        Err(_) => None,
    }
}

/// The number below 2^64 whose decimal text the bytes are.
pub fn read_number(bytes: &[u8]) -> Option<u64>
    ensures { MatchOption result ((n : ℕ) → n < 2 ^ 64 → ¬ (bytes.now ≡ decimal n)) (λ n. bytes.now ≡ decimal n) }
{
    match from_utf8(bytes) {
        Ok(text) => number_of_text(text),
        Err(_) => None,
    }
}
