//! The balances of a ledger's accounts, as the shards that are lent know them.

ghost use Rattle.std.specs.Prelude.{◌≡◌};
ghost use Rattle.lg_types.specs.Tally.{total_of};
ghost use Rattle.lg_shard.specs.Shown.{account_moves};
ghost use Rattle.lg_weigh.specs.Totals.{AreShardsWithin};

use lg_shard::{Shard, Shards, stripe_of};
use lg_types::{Address, Asset, Balances, Class, LedgerName, Volumes};

/// The present volumes of a ledger's accounts over the shards that are lent.
#[derive(Drop)]
pub struct LedgerBalances<'a, S> {
    lent: &'a S,
    ledger: &'a LedgerName,
}

impl<'a, S: Shards> LedgerBalances<'a, S> {
    ghost use Rattle.std.specs.Prelude.{◌≡◌};

    /// The balances of the ledger over the shards.
    pub fn new(lent: &'a S, ledger: &'a LedgerName) -> LedgerBalances<'a, S>
        ensures lent { result.lent.now ≡ lent.now }
        ensures ledger { result.ledger.now ≡ ledger.now }
    {
        LedgerBalances { lent, ledger }
    }
}

impl<S: Shards> Balances for LedgerBalances<'_, S> {
    ghost use Rattle.lg_weigh.specs.Totals.{lends_account, lent_total};

    ghost lends = { λ b account. lends_account (S.lent b.lent.now) b.ledger.now account };

    ghost totals = { λ b account asset. lent_total (S.lent b.lent.now) b.ledger.now account asset };

    fn volumes(&self, account: &Address, asset: &Asset) -> Volumes {
        match self
            .lent
            .shard(stripe_of(Class::Account, self.ledger, account.bytes()))
        {
            Some(shard) => total_in(shard, self.ledger, account, asset),
            None => unreachable!(),
        }
    }
}

/// The volumes of all moves of an account and an asset of the ledger.
fn total_in(shard: &Shard, ledger: &LedgerName, account: &Address, asset: &Asset) -> Volumes
    ensures { result ≡ total_of (account_moves shard.now.shares ledger.now account.now asset.now) }
{
    match shard.index(ledger, account, asset) {
        Some(index) => index.total(),
        None => Volumes::zero(),
    }
}

/// A law of shards that are lent: what they hold adds up within the limit.
pub fn shards_within<S: Shards>(lent: &S)
    ensures { AreShardsWithin (S.lent lent.now) }
{
    for stripe in 0..16u8 {
        match lent.shard(stripe) {
            Some(shard) => shard.totals_within(),
            None => {}
        }
    }
}
