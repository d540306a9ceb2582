//! The reading of a whole text.
ghost use Rattle.std.specs.Prelude.{◌≡◌, List, IfOk, IfErr, Ok, Err};
ghost use Rattle.lg_json.specs.Fault.{IsFault, MayFail};
ghost use Rattle.lg_json.specs.Grammar.{IsJson, Fits};
ghost use Rattle.lg_json.specs.Reading as machine;
ghost use Rattle.lg_json.specs.Tree.{Tree, tree};
ghost use Rattle.lg_json.specs.View.{Gives, next_view};
ghost use Rattle.lg_json.specs.declared.json.JsonFault.{JsonFault};

use crate::blanks::skip_blanks;
use crate::json::{Json, JsonFault};
use crate::state::Next;
use crate::step::step;
use std::alloc::Global;

/// The value of a JSON text (RFC 8259 in UTF-8), or its first fault from the left. A reader may
/// refuse what RFC 8259 leaves open: here numbers that aren't whole or not from -2^127 to
/// 2^127 - 1, more than 64 lists and objects inside one another, and repeated names in an object.
pub fn read(alloc: Global, bytes: &[u8]) -> Result<Json, JsonFault>
    // A value is that of the bytes, and within the limits.
    ensures found { IfOk result (λ v. IsJson (tree v) bytes.now × Fits 64 (tree v)) }

    // Where the bytes have a value within the limits, it is the answer, unless memory is wanting.
    ensures only { (t : Tree) → IsJson t bytes.now → Fits 64 t → Gives tree result (Ok t) }

    // A fault is the first fault of the bytes, at its place.
    ensures fault { IfErr result (MayFail bytes.now) }

    // Where the bytes have a first fault, it is the answer, unless memory is wanting.
    ensures each { (f : JsonFault) → IsFault bytes.now f → Gives tree result (Err f) }
{
    read_all(alloc, bytes)
}

/// The same, by what the reading byte by byte gives.
fn read_all(alloc: Global, bytes: &[u8]) -> Result<Json, JsonFault>
    ensures { Gives tree result (machine.reading bytes.now) }
{
    let mut frames = Vec::new(alloc);
    let mut next = Next::Value;
    let mut place = skip_blanks(bytes, 0);
    'steps: while place < bytes.len() {
        let (after, end) = step(alloc, bytes, place, &mut frames, &next)?;
        next = after;
        place = skip_blanks(bytes, end);
    }
    finish(bytes.len(), next)
}

/// The value where the bytes end at `place`.
#[tactic(auto, unfolding(crate::specs::Reading::finish))]
fn finish(place: usize, next: Next) -> Result<Json, JsonFault>
    ensures { (fs : List machine.Frame) → Gives tree result (machine.finish place fs (next_view next)) }
{
    match next {
        Next::End(value) => Ok(value.into_inner()),
        _ => Err(JsonFault::Syntax { place }),
    }
}
