//! First pages of lists: what a request without a cursor asks for.

ghost use Rattle.std.specs.Prelude.{◌≡◌};
ghost use Rattle.lg_codec.specs.Results.{Reads};
ghost use Rattle.lg_pages.specs.FirstPages.{FirstLedgers, FirstItems, FirstLogs, FirstVolumes};
ghost use Rattle.lg_routes.specs.Body.{body_seen};
ghost use Rattle.lg_routes.specs.Seen.{parameters_seen};
ghost use Rattle.lg_readings.specs.Requests as requests;

use crate::number_parameters::{group_by, page_size};
use lg_codec::CodecStop;
use lg_filters::filter_of_json;
use lg_routes::{Parameter, RequestBody, expand, moment, refuse_order, truth, value_of_body};
use lg_types::{Expand, Filter, ListKind, Query, Span};
use std::alloc::Global;

fn no_expand() -> Expand
    ensures { result ≡ requests.no_expand }
{
    Expand {
        volumes: false,
        effective: false,
    }
}

fn no_span() -> Span
    ensures { result ≡ requests.no_span }
{
    Span {
        from: None,
        to: None,
        by_insertion: false,
        group: 0,
    }
}

/// The filter of a list, of the body of a request: all items where there is none.
pub fn filter_of_body(alloc: Global, kind: ListKind, body: RequestBody) -> Result<Filter, CodecStop>
    ensures { Reads (requests.FilterBody kind (body_seen body)) result }
{
    let value = value_of_body(alloc, body)?;
    filter_of_json(alloc, kind, &value)
}

/// The first page of ledgers.
pub fn first_ledgers(alloc: Global, parameters: &[Parameter<'_>]) -> Result<Query, CodecStop>
    ensures { Reads (FirstLedgers (parameters_seen parameters.now)) result }
{
    let page_size = page_size(alloc, parameters)?;
    refuse_order(alloc, parameters)?;
    Ok(Query {
        filter: Filter::All,
        pit: None,
        page_size,
        after: None,
        expand: no_expand(),
        span: no_span(),
    })
}

/// The first page of accounts, or of transactions.
pub fn first_items(
    alloc: Global,
    kind: ListKind,
    parameters: &[Parameter<'_>],
    body: RequestBody,
) -> Result<Query, CodecStop>
    ensures { Reads (FirstItems kind (parameters_seen parameters.now) (body_seen body)) result }
{
    let page_size = page_size(alloc, parameters)?;
    let pit = moment(alloc, "pit", parameters)?;
    let expand = expand(alloc, parameters)?;
    refuse_order(alloc, parameters)?;
    let filter = filter_of_body(alloc, kind, body)?;
    Ok(Query {
        filter,
        pit,
        page_size,
        after: None,
        expand,
        span: no_span(),
    })
}

/// The first page of a log's entries.
pub fn first_logs(
    alloc: Global,
    parameters: &[Parameter<'_>],
    body: RequestBody,
) -> Result<Query, CodecStop>
    ensures { Reads (FirstLogs (parameters_seen parameters.now) (body_seen body)) result }
{
    let page_size = page_size(alloc, parameters)?;
    let pit = moment(alloc, "pit", parameters)?;
    refuse_order(alloc, parameters)?;
    let filter = filter_of_body(alloc, ListKind::Logs, body)?;
    Ok(Query {
        filter,
        pit,
        page_size,
        after: None,
        expand: no_expand(),
        span: no_span(),
    })
}

/// The first page of volumes.
pub fn first_volumes(
    alloc: Global,
    parameters: &[Parameter<'_>],
    body: RequestBody,
) -> Result<Query, CodecStop>
    ensures { Reads (FirstVolumes (parameters_seen parameters.now) (body_seen body)) result }
{
    let page_size = page_size(alloc, parameters)?;
    let from = moment(alloc, "startTime", parameters)?;
    let to = moment(alloc, "endTime", parameters)?;
    let by_insertion = truth(alloc, "insertionDate", parameters)?;
    let group = group_by(alloc, parameters)?;
    refuse_order(alloc, parameters)?;
    let filter = filter_of_body(alloc, ListKind::Volumes, body)?;
    Ok(Query {
        filter,
        pit: None,
        page_size,
        after: None,
        expand: no_expand(),
        span: Span {
            from,
            to,
            by_insertion,
            group,
        },
    })
}
