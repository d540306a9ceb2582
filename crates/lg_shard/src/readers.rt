//! What is found in the accounts of one ledger.

ghost use Rattle.std.specs.Prelude.{◌≡◌, ◌<◌, ◌↔◌, [], IfOk, IfSome, IsNone, Some, slice_get};
ghost use Rattle.std.specs.List.{find, list_any};
ghost use Rattle.std.specs.Option.{option_copied};
ghost use Rattle.lg_containers.specs.NameTable as table;
ghost use Rattle.lg_containers.specs.Pairs.{pair_of};
ghost use Rattle.lg_shard.specs.Accounts.{items_at, history_at};
ghost use Rattle.lg_shard.specs.Next.{is_behind};
ghost use Rattle.lg_shard.specs.Named.{assets_at, has_items, is_named as part_named, is_named_at, names_where};

use crate::accounts::{AccountPart, Accounts};
use crate::reserved::Reserved;
use lg_containers::{Address, Asset, AssetGrammar, Duplicate, Grammar, List, Name, NoMemory};
use lg_maps::NameMap;
use lg_meta::MetaHistory;
use lg_moves::MoveIndex;
use std::alloc::Global;

/// The index of the account and the asset, where it has moves.
pub fn find_index<'a>(
    accounts: &'a Accounts,
    account: &Address,
    asset: &Asset,
) -> Option<&'a MoveIndex>
    ensures some { IfSome result (λ index. index.now.items ≡ items_at accounts.now account.now asset.now) }
    ensures none { IsNone result ↔ (items_at accounts.now account.now asset.now ≡ []) }
{
    match accounts.find(account.bytes()) {
        Some(part) => match part.assets.find(asset.bytes()) {
            Some(slot) => {
                if slot.index.len() == 0 {
                    None
                } else {
                    Some(&slot.index)
                }
            }
            None => None,
        },
        None => None,
    }
}

/// The history of the account's metadata, where it has changes.
pub fn find_history<'a>(accounts: &'a Accounts, account: &Address) -> Option<&'a MetaHistory>
    ensures some { IfSome result (λ history. history.now.changes ≡ (history_at accounts.now account.now).changes) }
    ensures none { IsNone result ↔ ((history_at accounts.now account.now).changes ≡ []) }
{
    match accounts.find(account.bytes()) {
        Some(part) => {
            if part.history.first().is_some() {
                Some(&part.history)
            } else {
                None
            }
        }
        None => None,
    }
}

// Whether the index has moves.
fn has_move(slot: &Reserved) -> bool
    ensures { result ≡ has_items slot.now }
{
    slot.index.len() > 0
}

// The name at the place in byte order, with its value.
fn pair_at<G: Grammar, V>(names: &NameMap<G, V>, place: usize) -> (&Name<G>, &V)
    requires { place < table.len names.now }
    ensures { slice_get (table.pairs_of names.now) place ≡ Some (pair_of result) }
{
    match names.get(place) {
        Some(pair) => pair,
        None => unreachable!(),
    }
}

// Whether one of the assets has moves.
fn has_moves(assets: &NameMap<AssetGrammar, Reserved>) -> bool
    ensures { result ≡ list_any (λ p. has_items p.1) (table.pairs_of assets.now) }
{
    for place in 0..assets.len() {
        let (_, slot) = pair_at(assets, place);
        if has_move(slot) {
            return true;
        }
    }
    false
}

// Whether the account has a change of its metadata, or moves.
fn is_named(part: &AccountPart) -> bool
    ensures { result ≡ part_named part.now }
{
    part.history.first().is_some() || has_moves(&part.assets)
}

/// Whether the account has a change of its metadata, or moves. A move that is prepared alone counts for nothing.
pub fn is_named_in(accounts: &Accounts, account: &Address) -> bool
    ensures { result ≡ is_named_at accounts.now account.now }
{
    match accounts.find(account.bytes()) {
        Some(part) => is_named(part),
        None => false,
    }
}

/// The accounts that have a change of their metadata, or moves, in byte order.
pub fn named_accounts(alloc: Global, accounts: &Accounts) -> Result<List<Address>, NoMemory>
    ensures { IfOk result (λ names. names ≡ names_where part_named (table.pairs_of accounts.now)) }
{
    let mut names = List::new(alloc);
    for place in 0..accounts.len() {
        let (account, part) = pair_at(accounts, place);
        if is_named(part) {
            names.push(account.copy(alloc)?)?;
        }
    }
    Ok(names)
}

/// The assets of the account that have moves, in byte order.
pub fn moved_assets(
    alloc: Global,
    accounts: &Accounts,
    account: &Address,
) -> Result<List<Asset>, NoMemory>
    ensures { IfOk result (λ names. names ≡ assets_at accounts.now account.now) }
{
    match accounts.find(account.bytes()) {
        Some(part) => assets_with_moves(alloc, &part.assets),
        None => Ok(List::new(alloc)),
    }
}

fn assets_with_moves(
    alloc: Global,
    assets: &NameMap<AssetGrammar, Reserved>,
) -> Result<List<Asset>, NoMemory>
    ensures { IfOk result (λ names. names ≡ names_where has_items (table.pairs_of assets.now)) }
{
    let mut names = List::new(alloc);
    for place in 0..assets.len() {
        let (asset, slot) = pair_at(assets, place);
        if has_move(slot) {
            names.push(asset.copy(alloc)?)?;
        }
    }
    Ok(names)
}

/// The first account behind the given one that has a change of its metadata, or moves; where none is given, the first
/// of all.
pub fn next_named<'a>(accounts: &'a Accounts, given: Option<&Address>) -> Option<&'a Address>
    ensures { option_copied result ≡ find (is_behind (option_copied given.entry)) (names_where part_named (table.pairs_of accounts.now)) }
{
    let mut from = given_bytes(given);
    'walking: while let Some((account, part)) = accounts.after(from) {
        if is_named(part) {
            return Some(account);
        }
        from = Some(account.bytes());
    }
    None
}

/// The first asset of the account behind the given one that has moves; where none is given, the first of all.
pub fn next_moved<'a>(
    accounts: &'a Accounts,
    account: &Address,
    given: Option<&Asset>,
) -> Option<&'a Asset>
    ensures { option_copied result ≡ find (is_behind (option_copied given.entry)) (assets_at accounts.now account.now) }
{
    match accounts.find(account.bytes()) {
        Some(part) => next_with_moves(&part.assets, given),
        None => None,
    }
}

fn next_with_moves<'a>(
    assets: &'a NameMap<AssetGrammar, Reserved>,
    given: Option<&Asset>,
) -> Option<&'a Asset>
    ensures { option_copied result ≡ find (is_behind (option_copied given.entry)) (names_where has_items (table.pairs_of assets.now)) }
{
    let mut from = given_bytes(given);
    'walking: while let Some((asset, slot)) = assets.after(from) {
        if has_move(slot) {
            return Some(asset);
        }
        from = Some(asset.bytes());
    }
    None
}

// The bytes of the name, where one is given.
fn given_bytes<G: Grammar>(given: Option<&Name<G>>) -> Option<&[u8]>
    ensures { option_copied result ≡ option_copied given.entry }
{
    match given {
        Some(name) => Some(name.bytes()),
        None => None,
    }
}
