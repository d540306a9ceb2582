//! The four volumes of one account and one asset.

ghost use Rattle.std.specs.Prelude.{◌≡◌};
ghost use Rattle.lg_commit_volumes.specs.Lent.{IsLent, IsPairWithin, moves_before};
ghost use Rattle.lg_commit_volumes.specs.Before.{before_of, around};
ghost use Rattle.lg_commit_volumes.specs.Maps.{AreTotals};

use crate::before::before_in;
use crate::sums::both;
use crate::totals::{OwnMoves, own_volumes};
use lg_base::Volumes;
use lg_shard::Shards;
use lg_types::{Address, Asset, Entry, LedgerName};

/// The volumes of an account and an asset without and with a transaction: over all moves, and over those that aren't
/// after it in the order of effective dates and ids.
#[derive(Clone, Copy)]
pub struct PairVolumes {
    pub pre_commit: Volumes,
    pub post_commit: Volumes,
    pub pre_commit_effective: Volumes,
    pub post_commit_effective: Volumes,
}

/// The volumes of an account and an asset around the transaction.
pub fn pair_volumes<S: Shards>(
    shards: &S,
    ledger: &LedgerName,
    earlier: &[Entry],
    own: &OwnMoves<'_>,
    account: &Address,
    asset: &Asset,
) -> PairVolumes
    requires lent { IsLent (S.lent shards.now) ledger.now account.now }
    requires limit { IsPairWithin (S.lent shards.now) ledger.now earlier.now own.now.transaction.now (account.now, asset.now) }
    requires totals { AreTotals own.now.totals.now own.now.transaction.now.postings }
    ensures { result ≡ around own.now.transaction.now (before_of own.now.transaction.now (moves_before (S.lent shards.now) ledger.now earlier.now account.now asset.now)) account.now asset.now }
{
    let before = before_in(shards, ledger, earlier, own.transaction, account, asset);
    let moved = own_volumes(own, account, asset);
    PairVolumes {
        pre_commit: before.all,
        post_commit: both(before.all, moved),
        pre_commit_effective: before.ranked,
        post_commit_effective: both(before.ranked, moved),
    }
}
