//! What a write comes to, by what was looked up and tried of it.

ghost use Rattle.std.specs.Prelude.{◌≡◌, ◌+◌, ◌^◌, ◌<◌, List, IfOk};
ghost use Rattle.lg_types.specs.declared.records.Entry.{Entry};
ghost use Rattle.lg_views.specs.Writes.{decided};
ghost use Rattle.lg_decide.specs.Looking.{Shows};

use crate::creations::decide_creation;
use crate::looked::Looked;
use crate::reverts::decide_revert;
use crate::targets::{decide_drop, decide_set};
use lg_types::{NoMemory, Refusal, Write};
use lg_views::Decided;
use std::alloc::Global;

/// What a ledger decides of a write whose key it doesn't keep: the first refusal in the order of the refusals, or what
/// the new entry records. `date` is the date of the new entry, in microseconds since 1970-01-01T00:00:00Z, and `trial`
/// the refusal of the postings of a creation, or of a revert whose transaction is there. `Denied` says
/// - of a creation: the refusal of its postings; else `Used` where a transaction has its reference;
/// - of a revert: `NoTransaction` where its transaction isn't there; else `Already` where that is reverted; else the
///   refusal of its postings;
/// - of a change of metadata: `NoTransaction` where the target is a transaction that isn't there.
pub fn decide_write(
    alloc: Global,
    date: &i64,
    write: &Write,
    looked: &Looked<'_>,
    trial: Option<Refusal>,
) -> Result<Decided, NoMemory>
    requires { looked.now.transactions + 1 < 2 ^ 64 }
    ensures { IfOk result (λ d. (g : List Entry) → Shows g write.now looked.now trial → d ≡ decided g date.now write.now) }
{
    match write {
        Write::Create {
            postings,
            reference,
            timestamp,
            metadata,
            accounts,
            ..
        } => decide_creation(
            alloc,
            looked.transactions,
            date,
            postings,
            reference,
            timestamp,
            metadata,
            accounts,
            looked.used,
            trial,
        ),
        Write::Revert {
            id,
            at_effective_date,
            ..
        } => decide_revert(alloc, date, *id, *at_effective_date, looked, trial),
        Write::SetMeta { target, metadata } => {
            decide_set(alloc, target, metadata, looked.transaction)
        }
        Write::DropMeta { target, name } => decide_drop(alloc, target, name, looked.transaction),
    }
}
