//! What a request looks at of its body.

ghost use Rattle.std.specs.Prelude.{◌≡◌, Some, IfOk};
ghost use Rattle.std.specs.Option.{option_map};
ghost use Rattle.lg_readings.specs.Routes as routes;
ghost use Rattle.lg_routes.specs.Seen.{segments_seen};
ghost use Rattle.lg_routes.specs.Table.{row_seen, found_in};
ghost use Rattle.lg_routes.specs.declared.body.BodyKind.TheVariants.{Lines};
ghost use Rattle.lg_routes.specs.Calls.{body_kind_of, kind_of, kind_found, recomputes_in};

use crate::body::BodyKind;
use crate::matching::{RouteMatch, match_route};
use crate::parameter_words::recomputes;
use crate::parameters::read_parameters;
use crate::segments::{path_segments, split_target};
use crate::table::Row;
use lg_base::NoMemory;
use std::alloc::Global;
use std::borrow::CowSlice;

fn import_kind(alloc: Global, query: &[u8]) -> Result<BodyKind, NoMemory>
    ensures { IfOk result (λ kind. kind ≡ Lines (recomputes_in query.now)) }
{
    let parameters = read_parameters(alloc, query)?;
    Ok(BodyKind::Lines {
        recompute: recomputes(parameters.as_slice()),
    })
}

fn kind_of_row(alloc: Global, row: Row, query: &[u8]) -> Result<BodyKind, NoMemory>
    ensures { IfOk result (λ kind. kind ≡ kind_of (recomputes_in query.now) (routes.body_kind (row_seen row))) }
{
    match row {
        Row::ListLedgers => Ok(BodyKind::Ignored),
        Row::ShowLedger => Ok(BodyKind::Ignored),
        Row::ShowAccount => Ok(BodyKind::Ignored),
        Row::DropAccountMetadata => Ok(BodyKind::Ignored),
        Row::ShowTransaction => Ok(BodyKind::Ignored),
        Row::DropTransactionMetadata => Ok(BodyKind::Ignored),
        Row::ExportLogs => Ok(BodyKind::Ignored),
        Row::ShowStats => Ok(BodyKind::Ignored),
        Row::ImportLogs => import_kind(alloc, query),
        _ => Ok(BodyKind::Json),
    }
}

fn kind_at(
    alloc: Global,
    method: &[u8],
    segments: &[CowSlice<'_, u8>],
    query: &[u8],
) -> Result<BodyKind, NoMemory>
    ensures { IfOk result (λ kind. kind ≡ kind_found (recomputes_in query.now) (found_in (routes.routes_at (Some (segments_seen segments.now))) method.now)) }
{
    match match_route(method, segments) {
        RouteMatch::Found(route) => kind_of_row(alloc, route.row, query),
        RouteMatch::NoMethod => Ok(BodyKind::Ignored),
        RouteMatch::NoPath => Ok(BodyKind::Ignored),
    }
}

fn kind_at_path(
    alloc: Global,
    method: &[u8],
    segments: Option<Vec<CowSlice<'_, u8>>>,
    query: &[u8],
) -> Result<BodyKind, NoMemory>
    ensures { IfOk result (λ kind. kind ≡ kind_found (recomputes_in query.now) (found_in (routes.routes_at (option_map (λ s. segments_seen s.items) segments.entry)) method.now)) }
{
    match segments {
        Some(segments) => kind_at(alloc, method, segments.as_slice(), query),
        None => Ok(BodyKind::Ignored),
    }
}

/// What a request looks at of its body: nothing where no route has its path and its method, or its row has no body.
pub fn body_kind(alloc: Global, method: &[u8], target: &[u8]) -> Result<BodyKind, NoMemory>
    ensures { IfOk result (λ kind. kind ≡ body_kind_of method.now target.now) }
{
    let (path, query) = split_target(target);
    let segments = path_segments(alloc, path)?;
    kind_at_path(alloc, method, segments, query)
}
