//! Calls that write.

ghost use Rattle.std.specs.Prelude.{◌&&◌, codes};
ghost use Rattle.lg_readings.specs.Answers.{known};
ghost use Rattle.lg_readings.specs.Parameters.{unless_true};
ghost use Rattle.lg_codec.specs.Results.{Reads};
ghost use Rattle.lg_readings.specs.Requests as requests;
ghost use Rattle.lg_routes.specs.Body.{body_seen};
ghost use Rattle.lg_routes.specs.Seen.{parameters_seen, bytes_seen};
ghost use Rattle.lg_routes.specs.Names.{TargetNamed};

use crate::body::{RequestBody, lines_of_body, value_of_body};
use crate::names::{TargetName, id_named, ledger_named, metadata_named, read_key, target_named};
use crate::parameter_values::{refuse_order, refuse_true, truth};
use crate::parameter_words::check_hashes;
use crate::parameters::Parameter;
use lg_codec::{CodecStop, WriteKind, elements_of_json, ledger_of_json, write_of_json};
use lg_types::{Call, Write};
use std::alloc::Global;

/// The creation of a ledger.
pub fn make_call(
    alloc: Global,
    ledger: &[u8],
    parameters: &[Parameter<'_>],
    body: RequestBody,
) -> Result<Call, CodecStop>
    ensures { Reads (requests.MakeCall ledger.now (parameters_seen parameters.now) (body_seen body)) result }
{
    let ledger = ledger_named(alloc, ledger)?;
    refuse_order(alloc, parameters)?;
    let value = value_of_body(alloc, body)?;
    let (bucket, metadata) = ledger_of_json(alloc, &value)?;
    Ok(Call::MakeLedger {
        ledger,
        bucket,
        metadata,
    })
}

/// The creation of a transaction.
pub fn create_call(
    alloc: Global,
    ledger: &[u8],
    parameters: &[Parameter<'_>],
    key: Option<&[u8]>,
    body: RequestBody,
) -> Result<Call, CodecStop>
    ensures { Reads (requests.CreateCall ledger.now (parameters_seen parameters.now) (bytes_seen key.entry) (body_seen body)) result }
{
    let ledger = ledger_named(alloc, ledger)?;
    let dry_run = truth(alloc, "dryRun", parameters)?;
    refuse_true(alloc, "dryRun", dry_run)?;
    refuse_order(alloc, parameters)?;
    let key = read_key(alloc, key)?;
    let value = value_of_body(alloc, body)?;
    let write = write_of_json(alloc, WriteKind::Create, &value)?;
    Ok(Call::Write { ledger, key, write })
}

/// The revert of a transaction.
pub fn revert_call(
    alloc: Global,
    ledger: &[u8],
    id: &[u8],
    parameters: &[Parameter<'_>],
    key: Option<&[u8]>,
    body: RequestBody,
) -> Result<Call, CodecStop>
    ensures { Reads (requests.RevertCall ledger.now id.now (parameters_seen parameters.now) (bytes_seen key.entry) (body_seen body)) result }
{
    let ledger = ledger_named(alloc, ledger)?;
    let id = id_named(alloc, id)?;
    let force = truth(alloc, "force", parameters)?;
    let at_effective_date = truth(alloc, "atEffectiveDate", parameters)?;
    refuse_order(alloc, parameters)?;
    let key = read_key(alloc, key)?;
    let value = value_of_body(alloc, body)?;
    let kind = WriteKind::Revert {
        id,
        force,
        at_effective_date,
    };
    let write = write_of_json(alloc, kind, &value)?;
    Ok(Call::Write { ledger, key, write })
}

/// Metadata of an account or of a transaction.
pub fn set_call(
    alloc: Global,
    ledger: &[u8],
    target: TargetName<'_>,
    parameters: &[Parameter<'_>],
    key: Option<&[u8]>,
    body: RequestBody,
) -> Result<Call, CodecStop>
    ensures { Reads (requests.SetCall ledger.now (TargetNamed target.entry) (parameters_seen parameters.now) (bytes_seen key.entry) (body_seen body)) result }
{
    let ledger = ledger_named(alloc, ledger)?;
    let target = target_named(alloc, target)?;
    refuse_order(alloc, parameters)?;
    let key = read_key(alloc, key)?;
    let value = value_of_body(alloc, body)?;
    let write = write_of_json(alloc, WriteKind::SetMeta { target }, &value)?;
    Ok(Call::Write { ledger, key, write })
}

/// The end of one name of metadata.
pub fn drop_call(
    alloc: Global,
    ledger: &[u8],
    target: TargetName<'_>,
    name: &[u8],
    parameters: &[Parameter<'_>],
    key: Option<&[u8]>,
) -> Result<Call, CodecStop>
    ensures { Reads (requests.DropCall ledger.now (TargetNamed target.entry) name.now (parameters_seen parameters.now) (bytes_seen key.entry)) result }
{
    let ledger = ledger_named(alloc, ledger)?;
    let target = target_named(alloc, target)?;
    let name = metadata_named(alloc, name)?;
    refuse_order(alloc, parameters)?;
    let key = read_key(alloc, key)?;
    Ok(Call::Write {
        ledger,
        key,
        write: Write::DropMeta { target, name },
    })
}

/// An atomic list can't be parallel.
fn refuse_parallel(alloc: Global, atomic: bool, parallel: bool) -> Result<(), CodecStop>
    ensures { Reads (known (unless_true (codes "parallel") (atomic && parallel))) result }
{
    if atomic {
        return refuse_true(alloc, "parallel", parallel);
    }
    Ok(())
}

/// A list of writes.
pub fn bulk_call(
    alloc: Global,
    ledger: &[u8],
    parameters: &[Parameter<'_>],
    body: RequestBody,
) -> Result<Call, CodecStop>
    ensures { Reads (requests.BulkCall ledger.now (parameters_seen parameters.now) (body_seen body)) result }
{
    let ledger = ledger_named(alloc, ledger)?;
    let atomic = truth(alloc, "atomic", parameters)?;
    let go_on = truth(alloc, "continueOnFailure", parameters)?;
    let parallel = truth(alloc, "parallel", parameters)?;
    refuse_parallel(alloc, atomic, parallel)?;
    refuse_order(alloc, parameters)?;
    let value = value_of_body(alloc, body)?;
    let elements = elements_of_json(alloc, &value)?;
    Ok(Call::Bulk {
        ledger,
        elements,
        atomic,
        go_on,
    })
}

/// An import of entries.
pub fn import_call(
    alloc: Global,
    ledger: &[u8],
    parameters: &[Parameter<'_>],
    body: RequestBody,
) -> Result<Call, CodecStop>
    ensures { Reads (requests.ImportCall ledger.now (parameters_seen parameters.now) (body_seen body)) result }
{
    let ledger = ledger_named(alloc, ledger)?;
    check_hashes(alloc, parameters)?;
    refuse_order(alloc, parameters)?;
    let batch = lines_of_body(alloc, body)?;
    Ok(Call::Import { ledger, batch })
}
