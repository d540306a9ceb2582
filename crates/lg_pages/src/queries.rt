//! The queries of lists: those of their cursors, and those of their other parameters and the body where there is no cursor.

ghost use Rattle.lg_codec.specs.Results.{Reads};
ghost use Rattle.lg_routes.specs.Body.{body_seen};
ghost use Rattle.lg_routes.specs.Seen.{parameters_seen};
ghost use Rattle.lg_readings.specs.Requests as requests;

use crate::first_pages::{first_items, first_ledgers, first_logs, first_volumes};
use lg_codec::CodecStop;
use lg_routes::{Parameter, RequestBody, first_value};
use lg_tokens::read_token;
use lg_types::{ListKind, Query};
use std::alloc::Global;

/// The query of ledgers.
pub fn ledgers_query(alloc: Global, parameters: &[Parameter<'_>]) -> Result<Query, CodecStop>
    ensures { Reads (requests.LedgersQuery (parameters_seen parameters.now)) result }
{
    match first_value(parameters, b"cursor") {
        Some(token) => read_token(alloc, ListKind::Ledgers, token),
        None => first_ledgers(alloc, parameters),
    }
}

/// The query of accounts, or of transactions.
pub fn items_query(
    alloc: Global,
    kind: ListKind,
    parameters: &[Parameter<'_>],
    body: RequestBody,
) -> Result<Query, CodecStop>
    ensures { Reads (requests.ItemsQuery kind (parameters_seen parameters.now) (body_seen body)) result }
{
    match first_value(parameters, b"cursor") {
        Some(token) => read_token(alloc, kind, token),
        None => first_items(alloc, kind, parameters, body),
    }
}

/// The query of a log's entries.
pub fn logs_query(
    alloc: Global,
    parameters: &[Parameter<'_>],
    body: RequestBody,
) -> Result<Query, CodecStop>
    ensures { Reads (requests.LogsQuery (parameters_seen parameters.now) (body_seen body)) result }
{
    match first_value(parameters, b"cursor") {
        Some(token) => read_token(alloc, ListKind::Logs, token),
        None => first_logs(alloc, parameters, body),
    }
}

/// The query of volumes.
pub fn volumes_query(
    alloc: Global,
    parameters: &[Parameter<'_>],
    body: RequestBody,
) -> Result<Query, CodecStop>
    ensures { Reads (requests.VolumesQuery (parameters_seen parameters.now) (body_seen body)) result }
{
    match first_value(parameters, b"cursor") {
        Some(token) => read_token(alloc, ListKind::Volumes, token),
        None => first_volumes(alloc, parameters, body),
    }
}
