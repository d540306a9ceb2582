//! Blanks (RFC 8259, section 2).
ghost use Rattle.std.specs.Prelude.{◌≡◌, ◌<◌, ◌≤◌, false, length, slice_index};
ghost use Rattle.lg_json.specs.Reading as machine;
ghost use Rattle.lg_json.specs.Tokens.{Skips};

fn is_blank(byte: u8) -> bool
    ensures { result ≡ machine.is_blank byte }
{
    byte == b' ' || byte == b'\t' || byte == b'\n' || byte == b'\r'
}

/// The place of the first byte from `place` on that is no blank, or the length.
pub fn skip_blanks(bytes: &[u8], place: usize) -> usize
    requires { place ≤ length bytes.now }
    ensures skips { Skips bytes.now place result }
    ensures stops { result < length bytes.now → machine.is_blank (slice_index bytes.now result) ≡ false }
{
    let mut at = place;
    while at < bytes.len() {
        if !is_blank(bytes[at]) {
            return at;
        }
        at += 1;
    }
    at
}
