//! The words `null`, `true` and `false` (RFC 8259, section 3).
ghost use Rattle.std.specs.Prelude.{◌<◌, ◌≤◌, length};
ghost use Rattle.lg_json.specs.Tokens.{IsWord};

use crate::json::JsonFault;

/// Reads the rest of a word from `place` on: the place after it.
pub fn read_word(bytes: &[u8], place: usize, rest: &[u8]) -> Result<usize, JsonFault>
    requires within { place ≤ length bytes.now }
    requires some { 0 < length rest.now }
    ensures { IsWord bytes.now place rest.now result }
{
    let mut at = place;
    for byte in rest {
        if at == bytes.len() {
            return Err(JsonFault::Syntax { place: at });
        }
        if bytes[at] != *byte {
            return Err(JsonFault::Syntax { place: at });
        }
        at += 1;
    }
    Ok(at)
}
