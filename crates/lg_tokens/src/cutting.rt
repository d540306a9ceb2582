//! What stands before and behind a mark in bytes.

ghost use Rattle.std.specs.Prelude.{◌≡◌, ◌≢◌, List, ℕ, ◌∷◌, ◌++◌, MatchOption};
ghost use Rattle.lg_tokens.specs.Parts.{Lacks};

/// What stands behind the word, where the bytes begin with it.
pub fn after_word<'a>(bytes: &'a [u8], word: &[u8]) -> Option<&'a [u8]>
    ensures { MatchOption result ((rest : List ℕ)
        → bytes.now ≢ word.now ++ rest) (λ rest. bytes.now ≡ word.now ++ rest.now) }
{
    bytes.strip_prefix(word)
}

/// The bytes before the first mark, and those from it on.
pub fn cut_first(bytes: &[u8], mark: u8) -> Option<(&[u8], &[u8])>
    ensures { (front more : List ℕ) → Lacks mark front → bytes.now ≡ front ++ mark ∷ more
        → MatchOption result ⊥ (λ parts. (parts.0.now ≡ front) × (parts.1.now ≡ mark ∷ more)) }
{
    let mut place = 0;
    while place < bytes.len() {
        if bytes[place] == mark {
            return Some(bytes.split_at(place));
        }
        place += 1;
    }
    None
}

/// The bytes before the last mark, and those from it on.
pub fn cut_last(bytes: &[u8], mark: u8) -> Option<(&[u8], &[u8])>
    ensures { (front more : List ℕ) → Lacks mark more → bytes.now ≡ front ++ mark ∷ more
        → MatchOption result ⊥ (λ parts. (parts.0.now ≡ front) × (parts.1.now ≡ mark ∷ more)) }
{
    let mut end = bytes.len();
    while end > 0 {
        end -= 1;
        if bytes[end] == mark {
            return Some(bytes.split_at(end));
        }
    }
    None
}
