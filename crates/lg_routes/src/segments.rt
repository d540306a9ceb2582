//! The segments of a target's path.

ghost use Rattle.std.specs.Prelude.{◌≡◌, ◌<◌, ◌==◌, ◌∷◌, [], Some, None, length, position, IfOk, MatchOption};
ghost use Rattle.std.specs.List.{slice_split};
ghost use Rattle.std.specs.Option.{option_map};
ghost use Rattle.lg_readings.specs.Targets as targets;
ghost use Rattle.lg_routes.specs.Seen.{segments_seen, decoded};

use lg_base::NoMemory;
use percent_encoding::percent_decode;
use std::alloc::Global;
use std::borrow::CowSlice;

/// The place of the first question mark.
fn question_place(target: &[u8]) -> Option<usize>
    ensures { result ≡ position (λ b. b == 63) target.now }
{
    target.iter().position(|byte| *byte == b'?')
}

/// The path of a target, which is what stands before the first question mark, and the query behind it.
pub fn split_target(target: &[u8]) -> (&[u8], &[u8])
    ensures path { result.0.now ≡ targets.path_of target.now }
    ensures query { result.1.now ≡ targets.query_of target.now }
{
    match question_place(target) {
        Some(place) => (&target[..place], &target[place + 1..]),
        None => (target, &[]),
    }
}

/// The place of the first slash.
fn slash_place(path: &[u8]) -> Option<usize>
    ensures { result ≡ position targets.is_slash path.now }
{
    path.iter().position(|byte| *byte == b'/')
}

/// The piece before the first slash, and what is left behind it.
fn cut_piece(path: &[u8]) -> (&[u8], Option<&[u8]>)
    ensures { MatchOption result.1
        (slice_split targets.is_slash path.now ≡ result.0.now ∷ [])
        (λ left. (slice_split targets.is_slash path.now ≡ result.0.now ∷ slice_split targets.is_slash left.now) × (length left.now < length path.now)) }
{
    match slash_place(path) {
        Some(place) => (&path[..place], Some(&path[place + 1..])),
        None => (path, None),
    }
}

/// The pieces of what stands behind the first slash, decoded; none where one of them is empty.
fn segments_behind<'a>(
    alloc: Global,
    behind: &'a [u8],
) -> Result<Option<Vec<CowSlice<'a, u8>>>, NoMemory>
    ensures { IfOk result (λ segments. option_map (λ s. segments_seen s.items) segments ≡ decoded (slice_split targets.is_slash behind.now)) }
{
    let mut segments = Vec::new(alloc);
    let mut left = Some(behind);
    while let Some(path) = left {
        let (piece, more) = cut_piece(path);
        if piece.is_empty() {
            return Ok(None);
        }
        segments.push(percent_decode(piece).into_cow(alloc)?)?;
        left = more;
    }
    Ok(Some(segments))
}

/// The segments of a path, percent-decoded (RFC 3986, section 2.1); none where the path doesn't begin with a slash, or a
/// segment is empty.
pub fn path_segments<'a>(
    alloc: Global,
    path: &'a [u8],
) -> Result<Option<Vec<CowSlice<'a, u8>>>, NoMemory>
    ensures { IfOk result (λ segments. option_map (λ s. segments_seen s.items) segments ≡ targets.segments_behind (slice_split targets.is_slash path.now)) }
{
    match path.split_first() {
        Some((b'/', behind)) => segments_behind(alloc, behind),
        _ => Ok(None),
    }
}
