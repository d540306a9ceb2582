//! The members of a token's text that not every list has.

ghost use Rattle.std.specs.Prelude.{◌≡◌, List, ℕ, ℤ, Option, None, false, ◌<◌, ◌^◌, ◌++◌, MatchOption, IfSome, codes};
ghost use Rattle.lg_readings.specs.TokenReadings.{IsDate, IsSpan};
ghost use Rattle.lg_types.specs.declared.filters.ListKind.TheVariants.{Volumes};
ghost use Rattle.lg_types.specs.declared.queries.Expand.{Expand};
ghost use Rattle.lg_types.specs.declared.queries.Span.{Span};
ghost use Rattle.lg_views.specs.Tokens.{expand_text};
ghost use Rattle.lg_tokens.specs.Parts.{IsTail, IsOther, dated};
ghost use Rattle.lg_tokens.specs.Asked.{no_expand, no_span, span_text, IsAsked, asked_text};
ghost use Rattle.lg_tokens.specs.declared.asked.Asked.{Asked};

use crate::asked::Asked;
use crate::members::{read_dated, read_expand, read_group, read_insertion};
use lg_types::{Expand, ListKind, Span};

fn shows_nothing() -> Expand
    ensures { result ≡ no_expand }
{
    Expand {
        volumes: false,
        effective: false,
    }
}

fn spans_nothing() -> Span
    ensures { result ≡ no_span }
{
    Span {
        from: None,
        to: None,
        by_insertion: false,
        group: 0,
    }
}

fn read_pit(bytes: &[u8]) -> Option<(Option<i64>, &[u8])>
    ensures in_moments { IfSome result (λ found. IsDate found.0) }
    ensures found { (pit : Option ℤ) (more : List ℕ) → IsDate pit → IsOther 112 more
        → bytes.now ≡ dated (codes ",\"pit\":") pit ++ more
        → MatchOption result ⊥ (λ found. (found.0 ≡ pit) × (found.1.now ≡ more)) }
{
    read_dated(bytes, b",\"pit\":")
}

/// Two dates, and what stands behind them.
fn read_between(bytes: &[u8]) -> Option<(Option<i64>, Option<i64>, &[u8])>
    ensures in_moments { IfSome result (λ found. IsDate found.0 × IsDate found.1) }
    ensures found { (from to : Option ℤ) (more : List ℕ) → IsDate from → IsDate to
        → IsOther 101 more → IsOther 115 more
        → bytes.now ≡ dated (codes ",\"startTime\":") from ++ (dated (codes ",\"endTime\":") to ++ more)
        → MatchOption result ⊥ (λ found. (found.0 ≡ from) × (found.1 ≡ to) × (found.2.now ≡ more)) }
{
    let (from, rest) = read_dated(bytes, b",\"startTime\":")?;
    let (to, rest) = read_dated(rest, b",\"endTime\":")?;
    Some((from, to, rest))
}

/// The span of a list of volumes, and what stands behind it.
fn read_span(bytes: &[u8]) -> Option<(Span, &[u8])>
    ensures spans { IfSome result (λ found. IsSpan Volumes found.0) }
    ensures found { (span : Span) (more : List ℕ) → IsSpan Volumes span → IsTail more
        → bytes.now ≡ span_text span ++ more
        → MatchOption result ⊥ (λ found. (found.0 ≡ span) × (found.1.now ≡ more)) }
{
    let (from, to, rest) = read_between(bytes)?;
    let (by_insertion, rest) = read_insertion(rest);
    let (group, rest) = read_group(rest)?;
    let span = Span {
        from,
        to,
        by_insertion,
        group,
    };
    Some((span, rest))
}

/// What a list of accounts or of transactions asks for, and what stands behind it.
fn read_looked_at(bytes: &[u8]) -> Option<(Asked, &[u8])>
    ensures asks { IfSome result (λ found. IsDate found.0.pit × (found.0.span ≡ no_span)) }
    ensures found { (pit : Option ℤ) (expand : Expand) (more : List ℕ) → IsDate pit → IsTail more
        → bytes.now ≡ dated (codes ",\"pit\":") pit ++ (expand_text expand.volumes expand.effective ++ more)
        → MatchOption result ⊥ (λ found.
        (found.0 ≡ record { pit = pit; expand = expand; span = no_span }) × (found.1.now ≡ more)) }
{
    let (pit, rest) = read_pit(bytes)?;
    let (expand, rest) = read_expand(rest);
    let asked = Asked {
        pit,
        expand,
        span: spans_nothing(),
    };
    Some((asked, rest))
}

/// What a list of entries asks for, and what stands behind it.
fn read_dated_list(bytes: &[u8]) -> Option<(Asked, &[u8])>
    ensures asks { IfSome result (λ found.
        IsDate found.0.pit × (found.0.expand ≡ no_expand) × (found.0.span ≡ no_span)) }
    ensures found { (pit : Option ℤ) (more : List ℕ) → IsDate pit → IsTail more
        → bytes.now ≡ dated (codes ",\"pit\":") pit ++ more
        → MatchOption result ⊥ (λ found.
        (found.0 ≡ record { pit = pit; expand = no_expand; span = no_span }) × (found.1.now ≡ more)) }
{
    let (pit, rest) = read_pit(bytes)?;
    let asked = Asked {
        pit,
        expand: shows_nothing(),
        span: spans_nothing(),
    };
    Some((asked, rest))
}

/// What a list of volumes asks for, and what stands behind it.
fn read_spanned(bytes: &[u8]) -> Option<(Asked, &[u8])>
    ensures asks { IfSome result (λ found.
        (found.0.pit ≡ None) × (found.0.expand ≡ no_expand) × IsSpan Volumes found.0.span) }
    ensures found { (span : Span) (more : List ℕ) → IsSpan Volumes span → IsTail more
        → bytes.now ≡ span_text span ++ more
        → MatchOption result ⊥ (λ found.
        (found.0 ≡ record { pit = None; expand = no_expand; span = span }) × (found.1.now ≡ more)) }
{
    let (span, rest) = read_span(bytes)?;
    let asked = Asked {
        pit: None,
        expand: shows_nothing(),
        span,
    };
    Some((asked, rest))
}

fn asks_nothing() -> Asked
    ensures { result ≡ record { pit = None; expand = no_expand; span = no_span } }
{
    Asked {
        pit: None,
        expand: shows_nothing(),
        span: spans_nothing(),
    }
}

/// What a query of the list asks for beside its filter and its place, and what stands behind it.
pub fn read_asked(kind: ListKind, bytes: &[u8]) -> Option<(Asked, &[u8])>
    ensures asks { IfSome result (λ found. IsAsked kind found.0) }
    ensures found { (asked : Asked) (more : List ℕ) → IsAsked kind asked → IsTail more
        → bytes.now ≡ asked_text asked ++ more
        → MatchOption result ⊥ (λ found. (found.0 ≡ asked) × (found.1.now ≡ more)) }
{
    match kind {
        ListKind::Ledgers => Some((asks_nothing(), bytes)),
        ListKind::Accounts => read_looked_at(bytes),
        ListKind::Transactions => read_looked_at(bytes),
        ListKind::Logs => read_dated_list(bytes),
        ListKind::Volumes => read_spanned(bytes),
        ListKind::Aggregate => Some((asks_nothing(), bytes)),
    }
}
