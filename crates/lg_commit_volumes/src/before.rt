//! What accounts have before a transaction.

ghost use Rattle.std.specs.Prelude.{◌≡◌, ◌<◌, ◌||◌, ◌&&◌, if◌then◌else◌, true, nat_lt, int_lt};
ghost use Rattle.std.specs.Ordering.{int_eq};
ghost use Rattle.std.specs.Option.{option_copied};
ghost use Rattle.lg_base.specs.Volumes.{sum_of, IsWithinLimit};
ghost use Rattle.lg_types.specs.Moves.{moves, entry_moves, body_transaction};
ghost use Rattle.lg_types.specs.Tally.{total_of};
ghost use Rattle.lg_shard.specs.Shown.{account_moves};
ghost use Rattle.lg_commit_volumes.specs.Lent.{IsLent, moves_before};
ghost use Rattle.lg_commit_volumes.specs.Before.{precedes, before_of, with_moves, AreWithinLimit};

use crate::sums::{both, postings_volumes};
use lg_base::Volumes;
use lg_moves::MoveIndex;
use lg_runs::Steps;
use lg_shard::{Class, Shard, Shards, stripe_of};
use lg_types::{Address, Asset, Entry, EntryBody, LedgerName, Transaction};
use std::marker::Brand;
use std::sync::ledger::{Blank, Ledger};

/// The volumes of an account and an asset before a transaction.
#[derive(Clone, Copy)]
pub struct PairBefore {
    /// Over all moves.
    pub all: Volumes,
    /// Over the moves that are before the transaction in the order of effective dates and ids.
    pub ranked: Volumes,
}

/// What the lent shard and the earlier entries know of the account and the asset.
pub fn before_in<S: Shards>(
    shards: &S,
    ledger: &LedgerName,
    earlier: &[Entry],
    transaction: &Transaction,
    account: &Address,
    asset: &Asset,
) -> PairBefore
    requires lent { IsLent (S.lent shards.now) ledger.now account.now }
    requires limit { IsWithinLimit (total_of (moves_before (S.lent shards.now) ledger.now earlier.now account.now asset.now)) }
    ensures { result ≡ before_of transaction.now (moves_before (S.lent shards.now) ledger.now earlier.now account.now asset.now) }
{
    match shards.shard(stripe_of(Class::Account, ledger, account.bytes())) {
        Some(shard) => {
            let known = shard_before(shard, ledger, transaction, account, asset);
            with_entries(known, earlier, transaction, account, asset)
        }
        None => unreachable!(),
    }
}

/// What the shard knows of the account and the asset.
fn shard_before(
    shard: &Shard,
    ledger: &LedgerName,
    transaction: &Transaction,
    account: &Address,
    asset: &Asset,
) -> PairBefore
    ensures { result ≡ before_of transaction.now (account_moves shard.now.shares ledger.now account.now asset.now) }
{
    match shard.index(ledger, account, asset) {
        Some(index) => index_before::<Brand>(index, transaction, Blank::new(1)),
        None => PairBefore {
            all: Volumes::zero(),
            ranked: Volumes::zero(),
        },
    }
}

fn index_before<L: Ledger>(index: &MoveIndex, transaction: &Transaction, blank: Blank) -> PairBefore
    requires name { blank.name ≡ L.name }
    requires parts { blank.parts ≡ L.parts }
    requires some { 0 < L.parts }
    ensures { result ≡ before_of transaction.now index.now.items }
{
    let mut steps = Steps::<L>::new(blank);
    let date = effective_date(transaction);
    PairBefore {
        all: index.total(),
        ranked: index.before_rank(date, transaction.id, &mut steps),
    }
}

fn effective_date(transaction: &Transaction) -> i64
    ensures { result ≡ transaction.now.timestamp }
{
    transaction.timestamp
}

/// The same with what the entries move of the account and the asset.
fn with_entries(
    before: PairBefore,
    entries: &[Entry],
    transaction: &Transaction,
    account: &Address,
    asset: &Asset,
) -> PairBefore
    requires { AreWithinLimit (with_moves transaction.now before (moves entries.now) account.now asset.now) }
    ensures { result ≡ with_moves transaction.now before (moves entries.now) account.now asset.now }
{
    let mut known = before;
    for entry in entries {
        known = with_entry(known, entry, transaction, account, asset);
    }
    known
}

fn with_entry(
    before: PairBefore,
    entry: &Entry,
    transaction: &Transaction,
    account: &Address,
    asset: &Asset,
) -> PairBefore
    requires { AreWithinLimit (with_moves transaction.now before (entry_moves entry.now) account.now asset.now) }
    ensures { result ≡ with_moves transaction.now before (entry_moves entry.now) account.now asset.now }
{
    match transaction_of(&entry.body) {
        Some(made) => {
            let own = postings_volumes(made.postings.as_slice(), account, asset);
            with_own(before, own, is_before(made, transaction))
        }
        None => before,
    }
}

/// The transaction that an entry made.
fn transaction_of(body: &EntryBody) -> Option<&Transaction>
    ensures { option_copied result ≡ body_transaction body.now }
{
    match body {
        EntryBody::NewTransaction { transaction, .. } => Some(transaction),
        EntryBody::Reverted { transaction, .. } => Some(transaction),
        EntryBody::SetMetadata { .. } => None,
        EntryBody::DeleteMetadata { .. } => None,
    }
}

/// Whether a transaction is before another in the order of effective dates and ids.
fn is_before(one: &Transaction, other: &Transaction) -> bool
    ensures { result ≡ (int_lt one.now.timestamp other.now.timestamp || (int_eq one.now.timestamp other.now.timestamp && nat_lt one.now.id other.now.id)) }
{
    one.timestamp < other.timestamp || (one.timestamp == other.timestamp && one.id < other.id)
}

fn with_own(before: PairBefore, own: Volumes, is_ranked: bool) -> PairBefore
    requires all { IsWithinLimit (sum_of before.all own) }
    requires ranked { is_ranked ≡ true → IsWithinLimit (sum_of before.ranked own) }
    ensures { result ≡ record { all = sum_of before.all own; ranked = if is_ranked then sum_of before.ranked own else before.ranked } }
{
    if is_ranked {
        PairBefore {
            all: both(before.all, own),
            ranked: both(before.ranked, own),
        }
    } else {
        PairBefore {
            all: both(before.all, own),
            ranked: before.ranked,
        }
    }
}
