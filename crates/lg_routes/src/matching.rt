//! The route of a method and a path.

ghost use Rattle.std.specs.Prelude.{◌≡◌, Some, map};
ghost use Rattle.std.specs.List.{filter};
ghost use Rattle.lg_readings.specs.Routes as routes;
ghost use Rattle.lg_routes.specs.Seen.{segments_seen};
ghost use Rattle.lg_routes.specs.Table.{pattern_seen, route_seen, found_in, match_seen, MatchHasNames};

use crate::bytes::same_bytes;
use crate::table::{Pattern, ROUTES, Route};
use std::borrow::CowSlice;

/// Which route a method and a path have.
#[derive(Clone, Copy)]
pub enum RouteMatch {
    Found(Route),
    /// The path has routes, but none of the method.
    NoMethod,
    /// The path has no route.
    NoPath,
}

fn segment_fits(pattern: Pattern, segment: &[u8]) -> bool
    ensures { result ≡ routes.segment_fits (pattern_seen pattern) segment.now }
{
    match pattern {
        Pattern::Word(word) => same_bytes(segment, word),
        Pattern::Named => true,
    }
}

/// Whether the segments are of a route's path.
fn fits_path(path: &[Pattern], segments: &[CowSlice<'_, u8>]) -> bool
    ensures { result ≡ routes.fits_path (map pattern_seen path.now) (segments_seen segments.now) }
{
    if path.len() != segments.len() {
        return false;
    }
    for place in 0..path.len() {
        if !segment_fits(path[place], segments[place].as_slice()) {
            return false;
        }
    }
    true
}

fn match_among(table: &[Route], method: &[u8], segments: &[CowSlice<'_, u8>]) -> RouteMatch
    ensures { match_seen result ≡ found_in (filter (routes.has_path (segments_seen segments.now)) (map route_seen table.now)) method.now }
{
    let mut known = false;
    for route in table {
        if fits_path(route.path, segments) {
            if same_bytes(route.method, method) {
                return RouteMatch::Found(*route);
            }
            known = true;
        }
    }
    if known {
        RouteMatch::NoMethod
    } else {
        RouteMatch::NoPath
    }
}

/// The route of a method and of the segments of a path.
pub fn match_route(method: &[u8], segments: &[CowSlice<'_, u8>]) -> RouteMatch
    ensures route { match_seen result ≡ found_in (routes.routes_at (Some (segments_seen segments.now))) method.now }
    ensures names { MatchHasNames result (segments_seen segments.now) }
{
    match_among(&ROUTES, method, segments)
}
