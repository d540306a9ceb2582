//! The body of a request, where the lines of imports aren't looked at yet.

ghost use Rattle.std.specs.Prelude.{◌≡◌, Some, IfOk};
ghost use Rattle.std.specs.Option.{option_map};
ghost use Rattle.lg_json.specs.Tree.{tree};
ghost use Rattle.lg_readings.specs.Script as script;
ghost use Rattle.lg_routes.specs.Body.{body_seen};
ghost use Rattle.lg_batch.specs.Imports.{IsImportBody, IsBodyOf, as_unbuilt as as_unbuilt_call};

use lg_base::NoMemory;
use lg_containers::List;
use lg_json::Json;
use lg_routes::{BodyKind, RequestBody, body_kind};
use lg_types::{Batch, Call, Refusal};
use std::alloc::Global;

/// Whether a request imports: its body holds the lines of a log.
fn is_import(alloc: Global, method: &[u8], target: &[u8]) -> Result<bool, NoMemory>
    ensures { IfOk result (λ import. import ≡ script.is_import method.now target.now) }
{
    let kind = body_kind(alloc, method, target)?;
    match kind {
        BodyKind::Lines { .. } => Ok(true),
        BodyKind::Json => Ok(false),
        BodyKind::Ignored => Ok(false),
    }
}

/// The body of an import with a value: a text is taken for no lines, for what it holds isn't looked at.
fn import_body(alloc: Global, value: Json) -> RequestBody
    ensures { IsImportBody (tree value) (body_seen result) }
{
    match value {
        Json::Text(_) => RequestBody::Lines(Batch::Ready(List::new(alloc))),
        value => RequestBody::Value(value),
    }
}

fn value_body(
    alloc: Global,
    method: &[u8],
    target: &[u8],
    value: Json,
) -> Result<RequestBody, NoMemory>
    ensures { IfOk result (λ body. IsBodyOf method.now target.now (Some (tree value)) (body_seen body)) }
{
    let import = is_import(alloc, method, target)?;
    if import {
        Ok(import_body(alloc, value))
    } else {
        Ok(RequestBody::Value(value))
    }
}

/// The body of a request with the value of a line's body, where there is one.
pub fn request_body(
    alloc: Global,
    method: &[u8],
    target: &[u8],
    value: Option<Json>,
) -> Result<RequestBody, NoMemory>
    ensures { IfOk result (λ body. IsBodyOf method.now target.now (option_map tree value) (body_seen body)) }
{
    match value {
        Some(value) => value_body(alloc, method, target, value),
        None => Ok(RequestBody::None),
    }
}

/// The call of a request, where an import is refused as not built.
pub fn as_unbuilt(call: Call) -> Call
    ensures { result ≡ as_unbuilt_call call }
{
    match call {
        Call::Import { .. } => Call::Unreadable(Refusal::NotBuilt),
        call => call,
    }
}
