//! The front of a token's text, up to the page size.

ghost use Rattle.std.specs.Prelude.{◌≡◌, List, ℕ, ◌≤◌, ◌∷◌, ◌++◌, MatchOption, IfSome};
ghost use Rattle.lg_tokens.specs.Parts.{head_word, head_text};

use crate::cutting::after_word;
use crate::members::read_count;
use lg_types::ListKind;

fn front_of(kind: ListKind) -> &'static [u8]
    ensures { result.now ≡ head_word kind }
{
    match kind {
        ListKind::Ledgers => b"{\"kind\":\"ledgers\",\"pageSize\":",
        ListKind::Accounts => b"{\"kind\":\"accounts\",\"pageSize\":",
        ListKind::Transactions => b"{\"kind\":\"transactions\",\"pageSize\":",
        ListKind::Logs => b"{\"kind\":\"logs\",\"pageSize\":",
        ListKind::Volumes => b"{\"kind\":\"volumes\",\"pageSize\":",
        ListKind::Aggregate => b"{\"kind\":\"aggregate\",\"pageSize\":",
    }
}

/// The page size, 1 to 100, and what stands behind it, from a comma on.
pub fn read_page_size(kind: ListKind, bytes: &[u8]) -> Option<(u8, &[u8])>
    ensures size { IfSome result (λ found. (1 ≤ found.0) × (found.0 ≤ 100)) }
    ensures found { (size : ℕ) (more : List ℕ) → 1 ≤ size → size ≤ 100
        → bytes.now ≡ head_text kind size ++ 44 ∷ more
        → MatchOption result ⊥ (λ found. (found.0 ≡ size) × (found.1.now ≡ 44 ∷ more)) }
{
    let rest = after_word(bytes, front_of(kind))?;
    let (size, rest) = read_count(rest)?;
    if size < 1 || size > 100 {
        return None;
    }
    Some((size as u8, rest))
}
