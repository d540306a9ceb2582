//! The balances of a ledger's accounts after earlier entries.

ghost use Rattle.lg_listed.specs.Amounts.{AreTotalsWithin};

use crate::amounts::with_entries;
use lg_shard::Shards;
use lg_types::{Address, Asset, Balances, Entry, LedgerName, Volumes};
use lg_weigh::LedgerBalances;

/// The volumes of a ledger's accounts over the shards that are lent and earlier entries of the same list of writes. They
/// are within the limit.
#[derive(Drop)]
pub struct ListBalances<'a, S: Shards> {
    lent: &'a S,
    ledger: &'a LedgerName,
    earlier: &'a [Entry],
    ghost within: { AreTotalsWithin (S.lent lent.now) ledger.now earlier.now },
}

impl<'a, S: Shards> ListBalances<'a, S> {
    ghost use Rattle.std.specs.Prelude.{◌≡◌};

    /// The balances of the ledger over the shards and the entries.
    pub fn new(lent: &'a S, ledger: &'a LedgerName, earlier: &'a [Entry]) -> ListBalances<'a, S>
        requires { AreTotalsWithin (S.lent lent.now) ledger.now earlier.now }
        ensures lent { result.lent.now ≡ lent.now }
        ensures ledger { result.ledger.now ≡ ledger.now }
        ensures earlier { result.earlier.now ≡ earlier.now }
    {
        ListBalances {
            lent,
            ledger,
            earlier,
        }
    }
}

impl<S: Shards> Balances for ListBalances<'_, S> {
    ghost use Rattle.lg_weigh.specs.Totals.{lends_account};
    ghost use Rattle.lg_listed.specs.Amounts.{total_after};

    ghost lends = { λ b account. lends_account (S.lent b.lent.now) b.ledger.now account };

    ghost totals = { λ b account asset. total_after (S.lent b.lent.now) b.ledger.now b.earlier.now account asset };

    fn volumes(&self, account: &Address, asset: &Asset) -> Volumes {
        let known = LedgerBalances::new(self.lent, self.ledger).volumes(account, asset);
        with_entries(known, self.earlier, account, asset)
    }
}
