//! The lines of a text.

ghost use Rattle.std.specs.Prelude.{◌≡◌, ◌<◌, ◌==◌, ◌∷◌, length, position};
ghost use Rattle.std.specs.Str.Lines.{lines, strip_carriage_return};

/// The first line of the bytes, which are not empty, and what follows it.
pub fn cut_line(bytes: &[u8]) -> (&[u8], &[u8])
    requires { 0 < length bytes.now }
    ensures lines { lines bytes.now ≡ result.0.now ∷ lines result.1.now }
    ensures shorter { length result.1.now < length bytes.now }
{
    match newline_place(bytes) {
        Some(end) => (before_newline(&bytes[..end]), &bytes[end + 1..]),
        None => (bytes, &[]),
    }
}

/// The place of the first newline.
fn newline_place(bytes: &[u8]) -> Option<usize>
    ensures { result ≡ position (λ b. b == 10) bytes.now }
{
    bytes.iter().position(|byte| *byte == b'\n')
}

/// The bytes less the carriage return at their end, if they have one.
fn before_newline(bytes: &[u8]) -> &[u8]
    ensures { result.now ≡ strip_carriage_return bytes.now }
{
    match bytes.split_last() {
        Some((b'\r', front)) => front,
        _ => bytes,
    }
}
