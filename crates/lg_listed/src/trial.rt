//! The trial of postings over a ledger's log and earlier entries.

ghost use Rattle.std.specs.Prelude.{◌≡◌, ◌++◌, List, IfOk};
ghost use Rattle.std.specs.Option.{option_copied};
ghost use Rattle.lg_types.specs.declared.records.Event.{Event};
ghost use Rattle.lg_types.specs.Log.{log};
ghost use Rattle.lg_weigh.specs.Lent.{AreLent, AreParts};
ghost use Rattle.lg_weigh.specs.Trials.{write_trial};
ghost use Rattle.lg_listed.specs.Amounts.{AreTotalsWithin};
ghost use Rattle.lg_listed.specs.Elements.{every_stripe};

use crate::balances::ListBalances;
use lg_shard::Shards;
use lg_sheet::Sheet;
use lg_types::{Entry, LedgerName, NoMemory, Refusal, Transaction, Write};
use lg_weigh::try_write;
use std::alloc::Global;

/// The refusal of the postings of a creation, and of the revert of a transaction that is known.
pub fn try_postings<S: Shards>(
    alloc: Global,
    ledger: &LedgerName,
    write: &Write,
    known: Option<&Transaction>,
    lent: &S,
    earlier: &[Entry],
) -> Result<Option<Refusal>, NoMemory>
    requires lent { AreLent every_stripe (S.lent lent.now) }
    requires within { AreTotalsWithin (S.lent lent.now) ledger.now earlier.now }
    ensures { IfOk result (λ refused. (events : List Event) → AreParts every_stripe (S.lent lent.now) events → refused ≡ write_trial (log events ledger.now ++ earlier.now) write.now (option_copied known.entry)) }
{
    let balances = ListBalances::new(lent, ledger, earlier);
    let mut sheet = Sheet::new(alloc);
    try_write(alloc, &mut sheet, &balances, write, known)
}
