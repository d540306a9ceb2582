//! The volumes that the first reply to a new transaction shows.

ghost use Rattle.std.specs.Prelude.{◌≡◌, [], ◌∷◌, ◌++◌, List, Some, IfOk, OnOk};
ghost use Rattle.lg_types.specs.declared.records.Entry.{Entry};
ghost use Rattle.lg_types.specs.declared.records.Event.{Event};
ghost use Rattle.lg_types.specs.Log.{log};
ghost use Rattle.lg_types.specs.Moves.{body_transaction};
ghost use Rattle.lg_book.specs.FirstVolumes.{entry_volumes};
ghost use Rattle.lg_commit_volumes.specs.Lent.{IsLent, AreLent, AreParts, IsPairWithin, ArePairsWithin, HasSmallerIds};
ghost use Rattle.lg_commit_volumes.specs.Lent.{moves_before};
ghost use Rattle.lg_commit_volumes.specs.Before.{before_of, around};
ghost use Rattle.lg_commit_volumes.specs.Maps.{AreTotals, HasOnly, put_four, put_both};

use crate::maps::VolumeMaps;
use crate::pairs::pair_volumes;
use crate::totals::{OwnMoves, posting_totals};
use lg_base::NoMemory;
use lg_book::FirstVolumes;
use lg_shard::Shards;
use lg_types::{Address, Asset, Entry, LedgerName, Posting, Transaction};
use std::alloc::Global;

/// The volumes of the accounts of a new transaction, right before and right after it. `earlier` are the entries that
/// earlier writes of the same list append and that no shard has yet, in their order.
///
/// The transaction of an entry that follows a log and these entries gets the volumes over all of them, where its id is
/// greater than theirs. Each account and asset is read from its shard once, however many postings name it.
pub fn first_volumes<S: Shards>(
    alloc: Global,
    shards: &S,
    ledger: &LedgerName,
    earlier: &[Entry],
    transaction: &Transaction,
) -> Result<FirstVolumes, NoMemory>
    requires lent { AreLent (S.lent shards.now) ledger.now transaction.now }
    requires limit { ArePairsWithin (S.lent shards.now) ledger.now earlier.now transaction.now }
    ensures { IfOk result (λ volumes. (events : List Event) (e : Entry) → body_transaction e.body ≡ Some transaction.now → AreParts (S.lent shards.now) ledger.now events transaction.now → HasSmallerIds (log events ledger.now ++ earlier.now) transaction.now.id → volumes ≡ entry_volumes ((log events ledger.now ++ earlier.now) ++ e ∷ []) e) }
{
    let maps = filled_maps(alloc, shards, ledger, earlier, transaction)?;
    let volumes = maps.shared(alloc)?;
    Ok(volumes)
}

/// The maps with the volumes of the accounts of a new transaction.
fn filled_maps<S: Shards>(
    alloc: Global,
    shards: &S,
    ledger: &LedgerName,
    earlier: &[Entry],
    transaction: &Transaction,
) -> Result<VolumeMaps, NoMemory>
    requires lent { AreLent (S.lent shards.now) ledger.now transaction.now }
    requires limit { ArePairsWithin (S.lent shards.now) ledger.now earlier.now transaction.now }
    ensures { IfOk result (λ volumes. (events : List Event) (e : Entry) → body_transaction e.body ≡ Some transaction.now → AreParts (S.lent shards.now) ledger.now events transaction.now → HasSmallerIds (log events ledger.now ++ earlier.now) transaction.now.id → volumes ≡ entry_volumes ((log events ledger.now ++ earlier.now) ++ e ∷ []) e) }
{
    let totals = posting_totals(alloc, transaction.postings.as_slice())?;
    let own = OwnMoves {
        transaction,
        totals: &totals,
    };
    let mut maps = VolumeMaps::new(alloc);
    for posting in transaction.postings.as_slice() {
        put_posting(alloc, &mut maps, shards, ledger, earlier, &own, posting)?;
    }
    Ok(maps)
}

/// Puts the volumes of both accounts of a posting into the maps.
fn put_posting<S: Shards>(
    alloc: Global,
    maps: &mut VolumeMaps,
    shards: &S,
    ledger: &LedgerName,
    earlier: &[Entry],
    own: &OwnMoves<'_>,
    posting: &Posting,
) -> Result<(), NoMemory>
    requires lent_source { IsLent (S.lent shards.now) ledger.now posting.now.source }
    requires lent_destination { IsLent (S.lent shards.now) ledger.now posting.now.destination }
    requires source { IsPairWithin (S.lent shards.now) ledger.now earlier.now own.now.transaction.now (posting.now.source, posting.now.asset) }
    requires destination { IsPairWithin (S.lent shards.now) ledger.now earlier.now own.now.transaction.now (posting.now.destination, posting.now.asset) }
    requires totals { AreTotals own.now.totals.now own.now.transaction.now.postings }
    requires held { HasOnly (λ account asset. around own.now.transaction.now (before_of own.now.transaction.now (moves_before (S.lent shards.now) ledger.now earlier.now account asset)) account asset) maps.old }
    ensures { OnOk result (maps.new ≡ put_both (λ account asset. around own.now.transaction.now (before_of own.now.transaction.now (moves_before (S.lent shards.now) ledger.now earlier.now account asset)) account asset) maps.old posting.now) }
{
    let asset = &posting.asset;
    put_side(
        alloc,
        maps,
        shards,
        ledger,
        earlier,
        own,
        &posting.source,
        asset,
    )?;
    put_side(
        alloc,
        maps,
        shards,
        ledger,
        earlier,
        own,
        &posting.destination,
        asset,
    )
}

/// Puts the volumes of one account of a posting into the maps, where they don't have them yet.
fn put_side<S: Shards>(
    alloc: Global,
    maps: &mut VolumeMaps,
    shards: &S,
    ledger: &LedgerName,
    earlier: &[Entry],
    own: &OwnMoves<'_>,
    account: &Address,
    asset: &Asset,
) -> Result<(), NoMemory>
    requires lent { IsLent (S.lent shards.now) ledger.now account.now }
    requires limit { IsPairWithin (S.lent shards.now) ledger.now earlier.now own.now.transaction.now (account.now, asset.now) }
    requires totals { AreTotals own.now.totals.now own.now.transaction.now.postings }
    requires held { HasOnly (λ account asset. around own.now.transaction.now (before_of own.now.transaction.now (moves_before (S.lent shards.now) ledger.now earlier.now account asset)) account asset) maps.old }
    ensures { OnOk result (maps.new ≡ put_four maps.old account.now asset.now (around own.now.transaction.now (before_of own.now.transaction.now (moves_before (S.lent shards.now) ledger.now earlier.now account.now asset.now)) account.now asset.now)) }
{
    if maps.has_pair(account, asset) {
        return Ok(());
    }
    let volumes = pair_volumes(shards, ledger, earlier, own, account, asset);
    maps.put(alloc, account, asset, &volumes)
}
