//! The call of a request.

ghost use Rattle.std.specs.Prelude.{◌≡◌, ◌<◌, Some, length, map, IfOk};
ghost use Rattle.std.specs.Option.{option_map};
ghost use Rattle.form_urlencoded.specs.Form as form;
ghost use Rattle.lg_codec.specs.Results.{Reads};
ghost use Rattle.lg_readings.specs.Requests as requests;
ghost use Rattle.lg_readings.specs.Routes.{routes_at};
ghost use Rattle.lg_readings.specs.Targets as targets;
ghost use Rattle.lg_routes.specs.Seen.{segments_seen, parameters_seen, bytes_seen};
ghost use Rattle.lg_routes.specs.Table.{row_seen, segments_of, names_of, segment_at};
ghost use Rattle.lg_routes.specs.Body.{body_seen};
ghost use Rattle.lg_routes.specs.Calls.{AsksAt, IsCallOf, IsCallOfRefusal, IsCallOfAnswer};

use crate::body::RequestBody;
use crate::lists::{
    ListReader, accounts_read, aggregate_read, ledgers_call, logs_read, transactions_read,
    volumes_read,
};
use crate::matching::{RouteMatch, match_route};
use crate::names::TargetName;
use crate::parameters::{Parameter, read_parameters};
use crate::reads::{account_read, plain_read, transaction_read};
use crate::segments::{path_segments, split_target};
use crate::table::Row;
use crate::writes::{
    bulk_call, create_call, drop_call, import_call, make_call, revert_call, set_call,
};
use lg_base::NoMemory;
use lg_codec::CodecStop;
use lg_types::{Call, Read, Refusal};
use std::alloc::Global;
use std::borrow::CowSlice;

/// The segment at a place, counted from 0.
fn segment<'a>(segments: &'a [CowSlice<'_, u8>], place: usize) -> &'a [u8]
    requires { place < length (segments_seen segments.now) }
    ensures { result.now ≡ segment_at (segments_seen segments.now) place }
{
    segments[place].as_slice()
}

/// What the request of a row asks for.
fn call_of_row<L: ListReader>(
    alloc: Global,
    row: Row,
    segments: &[CowSlice<'_, u8>],
    parameters: &[Parameter<'_>],
    key: Option<&[u8]>,
    body: RequestBody,
) -> Result<Call, CodecStop>
    requires { length (segments_seen segments.now) ≡ segments_of (row_seen row) }
    ensures { Reads (requests.Asks (row_seen row) (names_of (row_seen row) (segments_seen segments.now)) (parameters_seen parameters.now) (bytes_seen key.entry) (body_seen body)) result }
{
    match row {
        Row::ListLedgers => ledgers_call::<L>(alloc, parameters, body),
        Row::MakeLedger => make_call(alloc, segment(segments, 1), parameters, body),
        Row::ShowLedger => plain_read(alloc, segment(segments, 1), parameters, Read::Ledger),
        Row::ListAccounts => accounts_read::<L>(alloc, segment(segments, 1), parameters, body),
        Row::ShowAccount => account_read(
            alloc,
            segment(segments, 1),
            segment(segments, 3),
            parameters,
        ),
        Row::SetAccountMetadata => {
            let target = TargetName::Account(segment(segments, 3));
            set_call(alloc, segment(segments, 1), target, parameters, key, body)
        }
        Row::DropAccountMetadata => {
            let target = TargetName::Account(segment(segments, 3));
            let name = segment(segments, 5);
            drop_call(alloc, segment(segments, 1), target, name, parameters, key)
        }
        Row::ListTransactions => {
            transactions_read::<L>(alloc, segment(segments, 1), parameters, body)
        }
        Row::CreateTransaction => create_call(alloc, segment(segments, 1), parameters, key, body),
        Row::ShowTransaction => transaction_read(
            alloc,
            segment(segments, 1),
            segment(segments, 3),
            parameters,
        ),
        Row::SetTransactionMetadata => {
            let target = TargetName::Transaction(segment(segments, 3));
            set_call(alloc, segment(segments, 1), target, parameters, key, body)
        }
        Row::DropTransactionMetadata => {
            let target = TargetName::Transaction(segment(segments, 3));
            let name = segment(segments, 5);
            drop_call(alloc, segment(segments, 1), target, name, parameters, key)
        }
        Row::RevertTransaction => {
            let id = segment(segments, 3);
            revert_call(alloc, segment(segments, 1), id, parameters, key, body)
        }
        Row::RunBulk => bulk_call(alloc, segment(segments, 1), parameters, body),
        Row::ListLogs => logs_read::<L>(alloc, segment(segments, 1), parameters, body),
        Row::ExportLogs => plain_read(alloc, segment(segments, 1), parameters, Read::Export),
        Row::ImportLogs => import_call(alloc, segment(segments, 1), parameters, body),
        Row::ListVolumes => volumes_read::<L>(alloc, segment(segments, 1), parameters, body),
        Row::AggregateBalances => {
            aggregate_read::<L>(alloc, segment(segments, 1), parameters, body)
        }
        Row::ShowStats => plain_read(alloc, segment(segments, 1), parameters, Read::Stats),
    }
}

/// What the request of a row asks for, with its query.
fn call_of_query<L: ListReader>(
    alloc: Global,
    row: Row,
    segments: &[CowSlice<'_, u8>],
    query: &[u8],
    key: Option<&[u8]>,
    body: RequestBody,
) -> Result<Call, CodecStop>
    requires { length (segments_seen segments.now) ≡ segments_of (row_seen row) }
    ensures { Reads (requests.Asks (row_seen row) (names_of (row_seen row) (segments_seen segments.now)) (map targets.parameter_of (form.raw_pairs query.now)) (bytes_seen key.entry) (body_seen body)) result }
{
    let parameters = read_parameters(alloc, query)?;
    call_of_row::<L>(alloc, row, segments, parameters.as_slice(), key, body)
}

/// What a request at these segments asks for.
fn call_at<L: ListReader>(
    alloc: Global,
    method: &[u8],
    segments: &[CowSlice<'_, u8>],
    query: &[u8],
    key: Option<&[u8]>,
    body: RequestBody,
) -> Result<Call, CodecStop>
    ensures { Reads (requests.AsksAmong (routes_at (Some (segments_seen segments.now))) method.now (segments_seen segments.now) (map targets.parameter_of (form.raw_pairs query.now)) (bytes_seen key.entry) (body_seen body)) result }
{
    match match_route(method, segments) {
        RouteMatch::Found(route) => {
            call_of_query::<L>(alloc, route.row, segments, query, key, body)
        }
        RouteMatch::NoMethod => Err(CodecStop::Refused(Refusal::Method)),
        RouteMatch::NoPath => Err(CodecStop::Refused(Refusal::NoRoute)),
    }
}

/// What a request at these segments, or at a path that has none, asks for.
fn call_at_path<L: ListReader>(
    alloc: Global,
    method: &[u8],
    segments: Option<Vec<CowSlice<'_, u8>>>,
    query: &[u8],
    key: Option<&[u8]>,
    body: RequestBody,
) -> Result<Call, CodecStop>
    ensures { Reads (AsksAt (option_map (λ s. segments_seen s.items) segments.entry) method.now (map targets.parameter_of (form.raw_pairs query.now)) (bytes_seen key.entry) (body_seen body)) result }
{
    match segments {
        Some(segments) => call_at::<L>(alloc, method, segments.as_slice(), query, key, body),
        None => Err(CodecStop::Refused(Refusal::NoRoute)),
    }
}

/// What a request asks for, or its first refusal.
fn answer_of_request<L: ListReader>(
    alloc: Global,
    method: &[u8],
    target: &[u8],
    key: Option<&[u8]>,
    body: RequestBody,
) -> Result<Call, CodecStop>
    ensures { Reads (requests.RequestAnswer method.now target.now (bytes_seen key.entry) (body_seen body)) result }
{
    let (path, query) = split_target(target);
    let segments = path_segments(alloc, path)?;
    call_at_path::<L>(alloc, method, segments, query, key, body)
}

/// The call of a refusal; none where memory was wanting.
fn call_of_refusal(refusal: Refusal) -> Result<Call, NoMemory>
    ensures { IfOk result (IsCallOfRefusal refusal) }
{
    match refusal {
        Refusal::OutOfMemory => Err(NoMemory),
        refusal => Ok(Call::Unreadable(refusal)),
    }
}

/// The call of what was read.
fn call_of_answer(answer: Result<Call, CodecStop>) -> Result<Call, NoMemory>
    ensures { IfOk result (IsCallOfAnswer answer) }
{
    match answer {
        Ok(call) => Ok(call),
        Err(CodecStop::Refused(refusal)) => call_of_refusal(refusal),
        Err(CodecStop::NoMemory) => Err(NoMemory),
    }
}

/// The call of a request: of its method, its target, its key and its body. A request that can't be read is the call
/// `Unreadable` with its first refusal. Where the body is looked at and memory was wanting for it, memory is wanting.
pub fn call_of_request<L: ListReader>(
    alloc: Global,
    method: &[u8],
    target: &[u8],
    key: Option<&[u8]>,
    body: RequestBody,
) -> Result<Call, NoMemory>
    ensures { IfOk result (IsCallOf method.now target.now (bytes_seen key.entry) (body_seen body)) }
{
    call_of_answer(answer_of_request::<L>(alloc, method, target, key, body))
}
