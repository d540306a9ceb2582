//! The body that comes with a request.

ghost use Rattle.lg_readings.specs.Answers.{known};
ghost use Rattle.lg_readings.specs.Requests as requests;
ghost use Rattle.lg_codec.specs.Results.{Reads};
ghost use Rattle.lg_readings.specs.Requests.{FaultyBody};
ghost use Rattle.lg_routes.specs.Body.{body_seen, faulty_body, ReadsTree};

use crate::refusals::wrong;
use lg_codec::CodecStop;
use lg_json::{Json, JsonFault};
use lg_types::{Batch, FaultKind, List, Reason, Refusal};
use std::alloc::Global;

/// The body that comes with a request.
#[derive(Drop)]
pub enum RequestBody {
    None,
    Value(Json),
    /// No JSON text, or memory is wanting.
    Faulty(JsonFault),
    /// The lines of an import.
    Lines(Batch),
}

/// The refusal of a body that is no JSON text.
fn refuse_text(fault: FaultKind, place: usize) -> Result<Json, CodecStop>
    ensures { ReadsTree (known (requests.value_of_body (FaultyBody fault place))) result }
{
    Err(CodecStop::Refused(Refusal::BodyJson {
        fault,
        place: place as u64,
    }))
}

fn refuse_faulty(fault: JsonFault) -> Result<Json, CodecStop>
    ensures { ReadsTree (known (requests.value_of_body (faulty_body fault))) result }
{
    match fault {
        JsonFault::Syntax { place } => refuse_text(FaultKind::Syntax, place),
        JsonFault::NotWhole { place } => refuse_text(FaultKind::NotWhole, place),
        JsonFault::TooWide { place } => refuse_text(FaultKind::TooWide, place),
        JsonFault::TooDeep { place } => refuse_text(FaultKind::TooDeep, place),
        JsonFault::Repeated { place } => refuse_text(FaultKind::Repeated, place),
        JsonFault::NoMemory => Err(CodecStop::NoMemory),
    }
}

/// The JSON value of a body that is looked at; null where there is none.
pub fn value_of_body(alloc: Global, body: RequestBody) -> Result<Json, CodecStop>
    ensures { ReadsTree (known (requests.value_of_body (body_seen body))) result }
{
    match body {
        RequestBody::None => Ok(Json::Null),
        RequestBody::Value(value) => Ok(value),
        RequestBody::Faulty(fault) => refuse_faulty(fault),
        RequestBody::Lines(_) => Err(wrong(alloc, "body", Reason::Kind)),
    }
}

/// The lines of an import; none where there is no body.
pub fn lines_of_body(alloc: Global, body: RequestBody) -> Result<Batch, CodecStop>
    ensures { Reads (known (requests.lines_of_body (body_seen body))) result }
{
    match body {
        RequestBody::None => Ok(Batch::Ready(List::new(alloc))),
        RequestBody::Value(Json::Null) => Ok(Batch::Ready(List::new(alloc))),
        RequestBody::Lines(batch) => Ok(batch),
        _ => Err(wrong(alloc, "body", Reason::Kind)),
    }
}

/// What a request looks at of its body.
#[derive(Clone, Copy, PartialEq, Eq)]
pub enum BodyKind {
    /// Nothing.
    Ignored,
    /// A JSON value.
    Json,
    /// The lines of an import.
    Lines {
        /// Whether hashes are computed anew.
        recompute: bool,
    },
}
