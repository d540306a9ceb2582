//! What the postings of a transaction move of each account and asset, gathered in one walk.

ghost use Rattle.std.specs.Prelude.{◌≡◌, ℕ, List, All, OnOk, IfOk};
ghost use Rattle.std.specs.List.{flat_map};
ghost use Rattle.std.specs.Option.{unwrap_or};
ghost use Rattle.lg_base.specs.Volumes.{sum_of, IsWithinLimit};
ghost use Rattle.lg_containers.specs.NameTable as table;
ghost use Rattle.lg_types.specs.Moves.{total};
ghost use Rattle.lg_types.specs.MoveLaws.{posting_volumes as volumes_of_posting};
ghost use Rattle.lg_types.specs.Trial.{tried_moves};
ghost use Rattle.lg_views.specs.Pairs.{put_pair};
ghost use Rattle.lg_commit_volumes.specs.Lent.{posting_pairs};
ghost use Rattle.lg_commit_volumes.specs.Maps.{total_in, nothing, AreTotals, IsTotalWithin};

use crate::sums::both;
use lg_base::{NoMemory, Volumes};
use lg_types::{Address, Asset, Posting, Transaction};
use lg_views::{AccountVolumes, AssetVolumes};
use std::alloc::Global;

/// A new transaction, with what its postings move of each account and asset.
#[derive(Clone, Copy)]
pub struct OwnMoves<'a> {
    pub transaction: &'a Transaction,
    pub totals: &'a AccountVolumes,
}

/// What the transaction moves of the account and the asset.
pub fn own_volumes(own: &OwnMoves<'_>, account: &Address, asset: &Asset) -> Volumes
    requires { AreTotals own.now.totals.now own.now.transaction.now.postings }
    ensures { result ≡ total (flat_map tried_moves own.now.transaction.now.postings) account.now asset.now }
{
    volumes_in(own.totals, account, asset)
}

fn volumes_in(totals: &AccountVolumes, account: &Address, asset: &Asset) -> Volumes
    ensures { result ≡ total_in totals.now account.now asset.now }
{
    match totals.find(account.bytes()) {
        Some(assets) => asset_volumes(assets, asset),
        None => Volumes::zero(),
    }
}

fn asset_volumes(assets: &AssetVolumes, asset: &Asset) -> Volumes
    ensures { result ≡ unwrap_or (table.get assets.now asset.now) nothing }
{
    match assets.find(asset.bytes()) {
        Some(volumes) => *volumes,
        None => Volumes::zero(),
    }
}

/// What the postings move of each account and asset.
pub fn posting_totals(alloc: Global, postings: &[Posting]) -> Result<AccountVolumes, NoMemory>
    requires { All (IsTotalWithin postings.now) (flat_map posting_pairs postings.now) }
    ensures { IfOk result (λ totals. AreTotals totals postings.now) }
{
    let mut totals = AccountVolumes::new(alloc);
    for posting in postings {
        add_posting(alloc, &mut totals, posting)?;
    }
    Ok(totals)
}

/// Adds what the posting moves.
fn add_posting(
    alloc: Global,
    totals: &mut AccountVolumes,
    posting: &Posting,
) -> Result<(), NoMemory>
    requires source { IsWithinLimit (sum_of (total_in totals.old posting.now.source posting.now.asset) (volumes_of_posting posting.now.source posting.now.asset posting.now)) }
    requires destination { IsWithinLimit (sum_of (total_in totals.old posting.now.destination posting.now.asset) (volumes_of_posting posting.now.destination posting.now.asset posting.now)) }
    ensures { OnOk result ((account asset : List ℕ) → total_in totals.new account asset ≡ sum_of (total_in totals.old account asset) (volumes_of_posting account asset posting.now)) }
{
    let amount = posting.amount.value();
    let output = Volumes {
        input: 0,
        output: amount,
    };
    add(alloc, totals, &posting.source, &posting.asset, output)?;
    let input = Volumes {
        input: amount,
        output: 0,
    };
    add(alloc, totals, &posting.destination, &posting.asset, input)
}

/// Adds the volumes to those of the account and the asset.
fn add(
    alloc: Global,
    totals: &mut AccountVolumes,
    account: &Address,
    asset: &Asset,
    more: Volumes,
) -> Result<(), NoMemory>
    requires { IsWithinLimit (sum_of (total_in totals.old account.now asset.now) more) }
    ensures { OnOk result (totals.new ≡ put_pair totals.old account.now asset.now (sum_of (total_in totals.old account.now asset.now) more)) }
{
    let assets = totals.open(alloc, account, AssetVolumes::new(alloc))?;
    add_asset(alloc, assets, asset, more)
}

fn add_asset(
    alloc: Global,
    assets: &mut AssetVolumes,
    asset: &Asset,
    more: Volumes,
) -> Result<(), NoMemory>
    requires { IsWithinLimit (sum_of (unwrap_or (table.get assets.old asset.now) nothing) more) }
    ensures { OnOk result (assets.new ≡ table.insert assets.old asset.now (sum_of (unwrap_or (table.get assets.old asset.now) nothing) more)) }
{
    let known = assets.open(alloc, asset, Volumes::zero())?;
    *known = both(*known, more);
    Ok(())
}
