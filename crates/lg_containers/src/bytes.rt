//! Tests of the bytes of names.

ghost use Rattle.std.specs.Prelude.{◌≡◌};
ghost use Rattle.lg_containers.specs.Bytes.{is_word_byte as word_byte, is_code_byte as code_byte};

/// A letter, a digit, `_` or `-`.
pub fn is_word_byte(byte: u8) -> bool
    ensures { result ≡ word_byte byte }
{
    byte.is_ascii_alphanumeric() || byte == b'_' || byte == b'-'
}

/// A capital letter or a digit.
pub fn is_code_byte(byte: u8) -> bool
    ensures { result ≡ code_byte byte }
{
    byte.is_ascii_uppercase() || byte.is_ascii_digit()
}
