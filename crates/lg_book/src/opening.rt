//! The ledger that is there from the start.

ghost use Rattle.std.specs.Prelude.{◌≡◌, IfOk, codes};
ghost use Rattle.lg_types.specs.Log.{first_ledger as first_ledger_info};

use lg_containers::{Bucket, LedgerName, Meta, NameFault};
use lg_types::{LedgerInfo, NoMemory};
use std::alloc::Global;

/// The record of the ledger `default`.
pub(crate) fn first_ledger(alloc: Global) -> Result<LedgerInfo, NoMemory>
    ensures { IfOk result (λ info. info ≡ first_ledger_info) }
{
    Ok(LedgerInfo {
        name: first_name(alloc)?,
        bucket: first_bucket(alloc)?,
        metadata: Meta::new(alloc),
        added: 0,
    })
}

fn first_name(alloc: Global) -> Result<LedgerName, NoMemory>
    ensures { IfOk result (λ name. name ≡ codes "default") }
{
    match LedgerName::read(alloc, b"default") {
        Ok(name) => Ok(name),
        Err(NameFault::NoMemory) => Err(NoMemory),
        Err(NameFault::Bad { .. }) => unreachable!(),
    }
}

fn first_bucket(alloc: Global) -> Result<Bucket, NoMemory>
    ensures { IfOk result (λ name. name ≡ codes "_default") }
{
    match Bucket::read(alloc, b"_default") {
        Ok(name) => Ok(name),
        Err(NameFault::NoMemory) => Err(NoMemory),
        Err(NameFault::Bad { .. }) => unreachable!(),
    }
}
