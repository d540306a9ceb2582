//! The members of a token's text: numbers, dates and words.

ghost use Rattle.std.specs.Prelude.{◌≡◌, ◌≢◌, List, ℕ, ℤ, Bool, Option, ◌<◌, ◌^◌, ◌∷◌, ◌++◌, MatchOption, IfSome, decimal, codes};
ghost use Rattle.lg_time.specs.Moment.{IsInMoments};
ghost use Rattle.lg_types.specs.PartTexts.{date_text};
ghost use Rattle.lg_readings.specs.TokenReadings.{IsDate};
ghost use Rattle.lg_views.specs.Tokens.{expand_text};
ghost use Rattle.lg_tokens.specs.Parts.{Lacks, IsOther, dated, insertion_text, group_text};

use crate::cutting::{after_word, cut_first};
use crate::laws::dates_read_back;
use lg_routes::read_number;
use lg_time::read_moment;
use lg_types::Expand;

/// A number below 2^64 before a comma, and what stands behind it, from the comma on.
pub fn read_count(bytes: &[u8]) -> Option<(u64, &[u8])>
    ensures { (n : ℕ) (more : List ℕ) → n < 2 ^ 64 → bytes.now ≡ decimal n ++ 44 ∷ more
        → MatchOption result ⊥ (λ found. (found.0 ≡ n) × (found.1.now ≡ 44 ∷ more)) }
{
    let (text, rest) = cut_first(bytes, b',')?;
    let number = read_number(text)?;
    Some((number, rest))
}

/// The text between quotes, in which no quote stands, and what stands behind it.
pub fn read_quoted(bytes: &[u8]) -> Option<(&[u8], &[u8])>
    ensures { (text more : List ℕ) → Lacks 34 text → bytes.now ≡ 34 ∷ (text ++ 34 ∷ more)
        → MatchOption result ⊥ (λ found. (found.0.now ≡ text) × (found.1.now ≡ more)) }
{
    let rest = after_word(bytes, b"\"")?;
    let (text, rest) = cut_first(rest, b'"')?;
    Some((text, after_word(rest, b"\"")?))
}

/// A date between quotes, in microseconds since 1970-01-01T00:00:00Z, and what stands behind it.
pub fn read_date(bytes: &[u8]) -> Option<(i64, &[u8])>
    ensures in_moments { IfSome result (λ found. IsInMoments found.0) }
    ensures found { (date : ℤ) (more : List ℕ) → IsInMoments date
        → bytes.now ≡ date_text date ++ more
        → MatchOption result ⊥ (λ found. (found.0 ≡ date) × (found.1.now ≡ more)) }
{
    dates_read_back();
    let (text, rest) = read_quoted(bytes)?;
    match read_moment(text) {
        Ok(moment) => Some((moment, rest)),
        Err(_) => None,
    }
}

/// The date behind the word, where the bytes begin with the word, and what stands behind it.
pub fn read_dated<'a>(bytes: &'a [u8], word: &[u8]) -> Option<(Option<i64>, &'a [u8])>
    ensures in_moments { IfSome result (λ found. IsDate found.0) }
    ensures found { (letter : ℕ) (tail : List ℕ) (date : Option ℤ) (more : List ℕ)
        → word.now ≡ 44 ∷ 34 ∷ letter ∷ tail
        → IsDate date → IsOther letter more → bytes.now ≡ dated word.now date ++ more
        → MatchOption result ⊥ (λ found. (found.0 ≡ date) × (found.1.now ≡ more)) }
{
    match after_word(bytes, word) {
        Some(rest) => {
            let (date, rest) = read_date(rest)?;
            Some((Some(date), rest))
        }
        None => Some((None, bytes)),
    }
}

/// Whether the dates are those of insertion, and what stands behind.
pub fn read_insertion(bytes: &[u8]) -> (bool, &[u8])
    ensures { (by_insertion : Bool) (more : List ℕ) → IsOther 105 more
        → bytes.now ≡ insertion_text by_insertion ++ more
        → (result.0 ≡ by_insertion) × (result.1.now ≡ more) }
{
    match after_word(bytes, b",\"insertionDate\":true") {
        Some(rest) => (true, rest),
        None => (false, bytes),
    }
}

/// To how many segments addresses are cut, and what stands behind.
pub fn read_group(bytes: &[u8]) -> Option<(u32, &[u8])>
    ensures { (group : ℕ) (more : List ℕ) → group < 2 ^ 32 → IsOther 103 more
        → bytes.now ≡ group_text group ++ more
        → MatchOption result ⊥ (λ found. (found.0 ≡ group) × (found.1.now ≡ more)) }
{
    match after_word(bytes, b",\"groupBy\":") {
        Some(rest) => {
            let (group, rest) = read_count(rest)?;
            match u32::try_from(group) {
                Ok(group) => Some((group, rest)),
                Err(_) => None,
            }
        }
        None => Some((0, bytes)),
    }
}

/// Which volumes are shown, and what stands behind.
pub fn read_expand(bytes: &[u8]) -> (Expand, &[u8])
    ensures { (volumes effective : Bool) (more : List ℕ) → IsOther 101 more
        → bytes.now ≡ expand_text volumes effective ++ more
        → (result.0 ≡ record { volumes = volumes; effective = effective }) × (result.1.now ≡ more) }
{
    match after_word(bytes, b",\"expand\":[\"volumes\",\"effectiveVolumes\"]") {
        Some(rest) => (expand(true, true), rest),
        None => match after_word(bytes, b",\"expand\":[\"volumes\"]") {
            Some(rest) => (expand(true, false), rest),
            None => match after_word(bytes, b",\"expand\":[\"effectiveVolumes\"]") {
                Some(rest) => (expand(false, true), rest),
                None => (expand(false, false), bytes),
            },
        },
    }
}

fn expand(volumes: bool, effective: bool) -> Expand
    ensures { result ≡ record { volumes = volumes; effective = effective } }
{
    Expand { volumes, effective }
}
