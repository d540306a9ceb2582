//! The volumes of an entry that a list appends.

ghost use Rattle.std.specs.Prelude.{◌≡◌, [], ◌∷◌, ◌++◌, IfOk, List};
ghost use Rattle.lg_types.specs.declared.records.Event.{Event};
ghost use Rattle.lg_types.specs.Log.{log};
ghost use Rattle.lg_book.specs.FirstVolumes.{entry_volumes};
ghost use Rattle.lg_bulk.specs.Gathering.{MayAppend};

use lg_book::FirstVolumes;
use lg_commit_volumes::first_volumes;
use lg_shard::Shards;
use lg_types::{Entry, EntryBody, LedgerName, NoMemory};
use std::alloc::Global;

/// The volumes that the first reply of a new entry shows, by the shards and the entries that its list appends before it.
pub fn volumes_of<S: Shards>(
    alloc: Global,
    ledger: &LedgerName,
    entry: &Entry,
    earlier: &[Entry],
    lent: &S,
) -> Result<FirstVolumes, NoMemory>
    requires { (events : List Event) × MayAppend (S.lent lent.now) events ledger.now earlier.now entry.now }
    ensures { IfOk result (λ volumes. (events : List Event) → MayAppend (S.lent lent.now) events ledger.now earlier.now entry.now → volumes ≡ entry_volumes ((log events ledger.now ++ earlier.now) ++ entry.now ∷ []) entry.now) }
{
    match &entry.body {
        EntryBody::NewTransaction { transaction, .. } => {
            first_volumes(alloc, lent, ledger, earlier, transaction)
        }
        EntryBody::SetMetadata { .. } => FirstVolumes::none(alloc),
        EntryBody::Reverted { transaction, .. } => {
            first_volumes(alloc, lent, ledger, earlier, transaction)
        }
        EntryBody::DeleteMetadata { .. } => FirstVolumes::none(alloc),
    }
}
