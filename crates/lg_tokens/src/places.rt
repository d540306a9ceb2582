//! The place of a token's text.

ghost use Rattle.std.specs.Prelude.{◌≡◌, List, ℕ, Some, [], ◌∷◌, ◌++◌, MatchOption, IfOk, IfSome};
ghost use Rattle.lg_types.specs.declared.filters.After.{After};
ghost use Rattle.lg_types.specs.declared.filters.After.TheVariants.{Pair};
ghost use Rattle.lg_types.specs.declared.filters.ListKind.TheVariants.{Ledgers, Accounts, Volumes};
ghost use Rattle.lg_views.specs.Tokens.{after_text};
ghost use Rattle.lg_readings.specs.TokenReadings.{IsPlaceOf};
ghost use Rattle.lg_tokens.specs.Parts.{Lacks, place_text};
ghost use Rattle.lg_containers.specs.AddressGrammar.{IsAddress};
ghost use Rattle.lg_containers.specs.AssetGrammar.{IsAsset};

use crate::cutting::{after_word, cut_first};
use crate::members::read_quoted;
use lg_base::NoMemory;
use lg_containers::{Grammar, Name};
use lg_routes::read_number;
use lg_types::{Address, After, Asset, ListKind, NameFault};
use std::alloc::Global;

/// The name of the grammar that the bytes are, where they are one.
fn name_of<G: Grammar>(alloc: Global, bytes: &[u8]) -> Result<Option<Name<G>>, NoMemory>
    ensures name { IfOk result (λ name. IfSome name (λ n. (n ≡ bytes.now) × G.Names bytes.now)) }
    ensures found { IfOk result (λ name. G.Names bytes.now → name ≡ Some bytes.now) }
{
    match Name::<G>::read(alloc, bytes) {
        Ok(name) => Ok(Some(name)),
        Err(NameFault::Bad { .. }) => Ok(None),
        Err(NameFault::NoMemory) => Err(NoMemory),
    }
}

fn address_of(alloc: Global, bytes: &[u8]) -> Result<Option<Address>, NoMemory>
    ensures name { IfOk result (λ name. IfSome name (λ n. (n ≡ bytes.now) × IsAddress bytes.now)) }
    ensures found { IfOk result (λ name. IsAddress bytes.now → name ≡ Some bytes.now) }
{
    name_of(alloc, bytes)
}

fn asset_of(alloc: Global, bytes: &[u8]) -> Result<Option<Asset>, NoMemory>
    ensures name { IfOk result (λ name. IfSome name (λ n. (n ≡ bytes.now) × IsAsset bytes.now)) }
    ensures found { IfOk result (λ name. IsAsset bytes.now → name ≡ Some bytes.now) }
{
    name_of(alloc, bytes)
}

/// The number before the last brace.
fn number_place(bytes: &[u8]) -> Option<After>
    ensures place { IfSome result (IsPlaceOf Ledgers) }
    ensures found { (place : After) → IsPlaceOf Ledgers place
        → bytes.now ≡ after_text place ++ 125 ∷ [] → result ≡ Some place }
{
    let (text, _) = cut_first(bytes, b'}')?;
    let number = read_number(text)?;
    Some(After::Place(number))
}

/// The address between quotes.
fn address_place(alloc: Global, bytes: &[u8]) -> Result<Option<After>, NoMemory>
    ensures place { IfOk result (λ place. IfSome place (IsPlaceOf Accounts)) }
    ensures found { IfOk result (λ found. (place : After) → IsPlaceOf Accounts place
        → bytes.now ≡ after_text place ++ 125 ∷ [] → found ≡ Some place) }
{
    match read_quoted(bytes) {
        Some((text, _)) => match address_of(alloc, text)? {
            Some(address) => Ok(Some(After::Address(address))),
            None => Ok(None),
        },
        None => Ok(None),
    }
}

/// The account and the asset on both sides of a blank.
fn pair_of(alloc: Global, account: &[u8], asset: &[u8]) -> Result<Option<After>, NoMemory>
    ensures place { IfOk result (λ place. IfSome place (IsPlaceOf Volumes)) }
    ensures found { IfOk result (λ found. IsAddress account.now → IsAsset asset.now
        → found ≡ Some (Pair account.now asset.now)) }
{
    match address_of(alloc, account)? {
        Some(account) => match asset_of(alloc, asset)? {
            Some(asset) => Ok(Some(After::Pair { account, asset })),
            None => Ok(None),
        },
        None => Ok(None),
    }
}

/// The bytes on both sides of the first blank.
fn cut_at_blank(bytes: &[u8]) -> Option<(&[u8], &[u8])>
    ensures { (front more : List ℕ) → Lacks 32 front → bytes.now ≡ front ++ 32 ∷ more
        → MatchOption result ⊥ (λ parts. (parts.0.now ≡ front) × (parts.1.now ≡ more)) }
{
    let (front, rest) = cut_first(bytes, b' ')?;
    Some((front, after_word(rest, b" ")?))
}

/// The account and the asset between quotes.
fn pair_place(alloc: Global, bytes: &[u8]) -> Result<Option<After>, NoMemory>
    ensures place { IfOk result (λ place. IfSome place (IsPlaceOf Volumes)) }
    ensures found { IfOk result (λ found. (place : After) → IsPlaceOf Volumes place
        → bytes.now ≡ after_text place ++ 125 ∷ [] → found ≡ Some place) }
{
    match pair_parts(bytes) {
        Some((account, asset)) => pair_of(alloc, account, asset),
        None => Ok(None),
    }
}

/// The text before the blank and the one behind it, between quotes.
fn pair_parts(bytes: &[u8]) -> Option<(&[u8], &[u8])>
    ensures { (account asset more : List ℕ) → Lacks 32 account → Lacks 34 account → Lacks 34 asset
        → bytes.now ≡ 34 ∷ ((account ++ 32 ∷ asset) ++ 34 ∷ more)
        → MatchOption result ⊥ (λ parts. (parts.0.now ≡ account) × (parts.1.now ≡ asset)) }
{
    let (text, _) = read_quoted(bytes)?;
    cut_at_blank(text)
}

/// The place of a token's text, where the list has such a place.
pub fn read_place(alloc: Global, kind: ListKind, bytes: &[u8]) -> Result<Option<After>, NoMemory>
    ensures place { IfOk result (λ place. IfSome place (IsPlaceOf kind)) }
    ensures found { IfOk result (λ found. (place : After) → IsPlaceOf kind place
        → bytes.now ≡ place_text place → found ≡ Some place) }
{
    match after_word(bytes, b",\"after\":") {
        Some(rest) => place_behind(alloc, kind, rest),
        None => Ok(None),
    }
}

/// The place behind its word, where the list has such a place.
fn place_behind(alloc: Global, kind: ListKind, bytes: &[u8]) -> Result<Option<After>, NoMemory>
    ensures place { IfOk result (λ place. IfSome place (IsPlaceOf kind)) }
    ensures found { IfOk result (λ found. (place : After) → IsPlaceOf kind place
        → bytes.now ≡ after_text place ++ 125 ∷ [] → found ≡ Some place) }
{
    match kind {
        ListKind::Ledgers => Ok(number_place(bytes)),
        ListKind::Accounts => address_place(alloc, bytes),
        ListKind::Transactions => Ok(number_place(bytes)),
        ListKind::Logs => Ok(number_place(bytes)),
        ListKind::Volumes => pair_place(alloc, bytes),
        ListKind::Aggregate => Ok(None),
    }
}
