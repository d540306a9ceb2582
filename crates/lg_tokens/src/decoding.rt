//! Base64url without padding (RFC 4648, section 5), decoded.

ghost use Rattle.std.specs.Prelude.{◌≡◌, List, ℕ, Ok, MatchOption, IfOk};
ghost use Rattle.base64.specs.GeneralPurpose.{decode_of};
ghost use Rattle.base64.specs.Engines.{url_safe_no_pad};

use base64::DecodeAllocError;
use base64::engine::general_purpose::URL_SAFE_NO_PAD;
use lg_base::NoMemory;
use std::alloc::Global;

/// The bytes of which these are the encoding, where there are such bytes.
pub fn decode(alloc: Global, bytes: &[u8]) -> Result<Option<Vec<u8>>, NoMemory>
    ensures { IfOk result (λ decoded. (text : List ℕ)
        → decode_of url_safe_no_pad bytes.now ≡ Ok text
        → MatchOption decoded ⊥ (λ d. d.items ≡ text)) }
{
    match URL_SAFE_NO_PAD.decode(alloc, bytes) {
        Ok(decoded) => Ok(Some(decoded)),
        Err(DecodeAllocError::DecodeError(_)) => Ok(None),
        Err(DecodeAllocError::OutOfMemory) => Err(NoMemory),
    }
}
