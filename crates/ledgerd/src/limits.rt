//! How much input the program takes.

ghost use Rattle.std.specs.Prelude.{◌≡◌, ◌≤◌, ◌-◌, length, slice_get};
ghost use Rattle.ledgerd.specs.Limits.{line_count as count_of_lines, unended_lines};

/// The most bytes of input.
pub const BYTE_LIMIT: usize = 67108864;

/// The most lines of input.
pub const LINE_LIMIT: usize = 200000;

/// How many lines the bytes have: each ends at a newline, and a last one without a newline counts.
pub fn line_count(bytes: &[u8]) -> usize
    requires { length bytes.now ≤ 67108864 }
    ensures { result ≡ count_of_lines bytes.now }
{
    bytes.iter().filter(|byte| **byte == b'\n').count() + unended(bytes)
}

/// 1 where the last byte is no newline, and else 0.
fn unended(bytes: &[u8]) -> usize
    ensures value { result ≡ unended_lines (slice_get bytes.now (length bytes.now - 1)) }
    ensures small { result ≤ 1 }
{
    match bytes.last() {
        None => 0,
        Some(byte) => { if *byte == b'\n' { 0 } else { 1 } }
    }
}
