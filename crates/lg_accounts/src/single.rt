//! One account, as a reading of it is answered.

ghost use Rattle.std.specs.Prelude.{◌≡◌, IfOk, List};
ghost use Rattle.lg_types.specs.Log.{log};
ghost use Rattle.lg_types.specs.Parts.{part_of};
ghost use Rattle.lg_types.specs.Stripes.{stripe};
ghost use Rattle.lg_types.specs.declared.classes.Class.TheVariants.{Account as AccountClass};
ghost use Rattle.lg_types.specs.declared.records.Event.{Event};
ghost use Rattle.lg_views.specs.Reads.{account_content};
ghost use Rattle.lg_accounts.specs.Dates.{NeverFall};

use crate::account_at::AccountAt;
use lg_base::NoMemory;
use lg_runs::Steps;
use lg_types::{Duplicate, Expand, Refusal};
use lg_views::Content;
use std::alloc::Global;
use std::sync::ledger::Ledger;

/// What a reading of the account is answered: the account as it is at the date, or that it isn't there.
pub fn account<L: Ledger>(
    alloc: Global,
    of: &AccountAt<'_>,
    expand: Expand,
    steps: &mut Steps<L>,
) -> Result<Content, NoMemory>
    ensures { IfOk result (λ content. (events : List Event) → of.now.shard.now.shares ≡ part_of (stripe AccountClass of.now.ledger.now of.now.address.now) events → NeverFall (log events of.now.ledger.now) → content ≡ account_content (log events of.now.ledger.now) of.now.address.now of.now.pit expand) }
{
    let assets = of.shard.assets(of.ledger, of.address)?;
    if of.is_there(assets.as_slice(), steps) {
        let view = of.view(alloc, assets.as_slice(), expand, steps)?;
        Ok(Content::Account(view))
    } else {
        let address = of.address.copy(alloc)?;
        Ok(Content::Refused(Refusal::NoAccount { address }))
    }
}
