//! The filter of a token's text.

ghost use Rattle.std.specs.Prelude.{◌≡◌, List, ℕ, ◌∷◌, ◌++◌, MatchOption, IfOk, IfSome};
ghost use Rattle.lg_json.specs.Tree.{Tree, tree};
ghost use Rattle.lg_json.specs.Grammar.{Fits, IsJson};
ghost use Rattle.lg_types.specs.declared.filters.Filter.{Filter};
ghost use Rattle.lg_readings.specs.FilterReadings.{IsFilter};
ghost use Rattle.lg_views.specs.Tokens.{filter_text, filter_member};
ghost use Rattle.lg_tokens.specs.Parts.{Lacks, IsShown};

use crate::cutting::{after_word, cut_last};
use crate::laws::{filters_are_spelled, filters_have_one_text};
use lg_base::NoMemory;
use lg_codec::CodecStop;
use lg_filters::read_filter;
use lg_json::{Json, JsonFault};
use lg_types::{Filter, ListKind};
use std::alloc::Global;

/// The JSON value that the bytes are, where they are one within the limits of `lg_json::read`.
fn read_value(alloc: Global, text: &[u8]) -> Result<Option<Json>, NoMemory>
    ensures fits { IfOk result (λ value. IfSome value (λ v. Fits 64 (tree v))) }
    ensures found { IfOk result (λ value. (t : Tree) → IsJson t text.now → Fits 64 t
        → MatchOption value ⊥ (λ v. tree v ≡ t)) }
{
    match lg_json::read(alloc, text) {
        Ok(value) => Ok(Some(value)),
        Err(JsonFault::Syntax { .. }) => Ok(None),
        Err(JsonFault::NotWhole { .. }) => Ok(None),
        Err(JsonFault::TooWide { .. }) => Ok(None),
        Err(JsonFault::TooDeep { .. }) => Ok(None),
        Err(JsonFault::Repeated { .. }) => Ok(None),
        Err(JsonFault::NoMemory) => Err(NoMemory),
    }
}

/// The filter of the list that the value shows, where it shows one.
fn filter_of_value(alloc: Global, kind: ListKind, value: &Json) -> Result<Option<Filter>, NoMemory>
    ensures shown { IfOk result (λ filter. IfSome filter (λ f. IsFilter kind f (tree value.now))) }
    ensures found { IfOk result (λ filter. (f : Filter) → IsFilter kind f (tree value.now)
        → MatchOption filter ⊥ (λ g. filter_text g ≡ filter_text f)) }
{
    filters_have_one_text();
    match read_filter(alloc, kind, value) {
        Ok(filter) => Ok(Some(filter)),
        Err(CodecStop::Refused(_)) => Ok(None),
        Err(CodecStop::NoMemory) => Err(NoMemory),
    }
}

/// The filter of the list whose text the bytes are, where they are such a text.
fn filter_of_text(alloc: Global, kind: ListKind, text: &[u8]) -> Result<Option<Filter>, NoMemory>
    ensures shown { IfOk result (λ filter. IfSome filter (IsShown kind)) }
    ensures found { IfOk result (λ filter. (f : Filter) → IsShown kind f
        → text.now ≡ filter_text f → MatchOption filter ⊥ (λ g. filter_text g ≡ filter_text f)) }
{
    filters_are_spelled();
    match read_value(alloc, text)? {
        Some(value) => filter_of_value(alloc, kind, &value),
        None => Ok(None),
    }
}

/// The filter behind its word, and what stands behind it from a comma on.
fn filter_behind(
    alloc: Global,
    kind: ListKind,
    bytes: &[u8],
) -> Result<Option<(Filter, &[u8])>, NoMemory>
    ensures shown { IfOk result (λ found. IfSome found (λ f. IsShown kind f.0)) }
    ensures found { IfOk result (λ found. (filter : Filter) (more : List ℕ) → IsShown kind filter
        → Lacks 44 more
        → bytes.now ≡ filter_text filter ++ 44 ∷ more
        → MatchOption found ⊥ (λ f. (filter_text f.0 ≡ filter_text filter) × (f.1.now ≡ 44 ∷ more))) }
{
    match cut_last(bytes, b',') {
        Some((text, rest)) => match filter_of_text(alloc, kind, text)? {
            Some(filter) => Ok(Some((filter, rest))),
            None => Ok(None),
        },
        None => Ok(None),
    }
}

/// The filter of a token's text, which passes all items where it isn't there, and what stands behind it.
pub fn read_filter_member(
    alloc: Global,
    kind: ListKind,
    bytes: &[u8],
) -> Result<Option<(Filter, &[u8])>, NoMemory>
    ensures shown { IfOk result (λ found. IfSome found (λ f. IsShown kind f.0)) }
    ensures found { IfOk result (λ found. (filter : Filter) (more : List ℕ) → IsShown kind filter
        → Lacks 44 more
        → bytes.now ≡ filter_member filter ++ 44 ∷ 34 ∷ 97 ∷ more
        → MatchOption found ⊥ (λ f. (filter_member f.0 ≡ filter_member filter) × (f.1.now ≡ 44 ∷ 34 ∷ 97 ∷ more))) }
{
    match after_word(bytes, b",\"filter\":") {
        Some(rest) => filter_behind(alloc, kind, rest),
        None => Ok(Some((Filter::All, bytes))),
    }
}
