//! What a change of metadata comes to.

ghost use Rattle.std.specs.Prelude.{◌≡◌, List, IfOk};
ghost use Rattle.std.specs.Option.{option_copied, option_and_then};
ghost use Rattle.lg_types.specs.declared.records.Entry.{Entry};
ghost use Rattle.lg_types.specs.declared.records.EntryBody.TheVariants.{SetMetadata, DeleteMetadata};
ghost use Rattle.lg_views.specs.Writes.{if_target};
ghost use Rattle.lg_decide.specs.Looking.{transaction_at, target_id, missing_id};

use lg_types::{Duplicate, EntryBody, Meta, NoMemory, Refusal, Target, Text, Transaction};
use lg_views::Decided;
use std::alloc::Global;

/// What setting metadata of the target comes to.
pub fn decide_set(
    alloc: Global,
    target: &Target,
    metadata: &Meta,
    found: Option<&Transaction>,
) -> Result<Decided, NoMemory>
    ensures { IfOk result (λ d. (g : List Entry) → option_copied found.entry ≡ option_and_then (transaction_at g) (target_id target.now) → d ≡ if_target g target.now (SetMetadata target.now metadata.now)) }
{
    match missing(target, found) {
        Some(id) => Ok(Decided::Denied(Refusal::NoTransaction { id })),
        None => {
            let target = target.copy(alloc)?;
            let metadata = metadata.copy(alloc)?;
            Ok(Decided::Granted(EntryBody::SetMetadata { target, metadata }))
        }
    }
}

/// What taking a name out of the metadata of the target comes to.
pub fn decide_drop(
    alloc: Global,
    target: &Target,
    name: &Text,
    found: Option<&Transaction>,
) -> Result<Decided, NoMemory>
    ensures { IfOk result (λ d. (g : List Entry) → option_copied found.entry ≡ option_and_then (transaction_at g) (target_id target.now) → d ≡ if_target g target.now (DeleteMetadata target.now name.now)) }
{
    match missing(target, found) {
        Some(id) => Ok(Decided::Denied(Refusal::NoTransaction { id })),
        None => {
            let target = target.copy(alloc)?;
            let name = name.copy(alloc)?;
            Ok(Decided::Granted(EntryBody::DeleteMetadata { target, name }))
        }
    }
}

/// The id of a target transaction that isn't there.
fn missing(target: &Target, found: Option<&Transaction>) -> Option<u64>
    ensures { result ≡ missing_id target.now (option_copied found.entry) }
{
    match target {
        Target::Account(_) => None,
        Target::Transaction(id) => match found {
            Some(_) => None,
            None => Some(*id),
        },
    }
}
