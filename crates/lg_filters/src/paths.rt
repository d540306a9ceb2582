//! Where a filter stands: the names of the operators from the top, with the place in a list.

ghost use Rattle.std.specs.Prelude.{◌≡◌, ◌++◌, codes, IfOk};
ghost use Rattle.std.specs.List.{flat_map};
ghost use Rattle.lg_types.specs.declared.refusals.Refusal.TheVariants.{BadFilter};
ghost use Rattle.lg_readings.specs.Paths as spec;
ghost use Rattle.lg_codec.specs.Stops.{StopsWith};

use itoa::Buffer;
use lg_base::NoMemory;
use lg_codec::CodecStop;
use lg_types::{Duplicate, Refusal, Text};
use std::alloc::Global;
use std::str::from_utf8;

fn as_str<'a>(text: &'a Text) -> &'a str
    ensures { result.now ≡ text.now }
{
    match from_utf8(text.bytes()) {
        Ok(text) => text,
        Err(_) => unreachable!(),
    }
}

/// The text that the pieces make, one after another.
fn joined<'a>(alloc: Global, pieces: &[&'a str]) -> Result<Text, NoMemory>
    ensures { IfOk result (λ text. text ≡ flat_map (λ piece. piece.now) pieces.now) }
{
    let text = pieces.concat(alloc)?;
    Ok(Text::from_vec(text.into_bytes()))
}

/// The path of a member of what stands at the path; none is the whole body.
pub fn below(alloc: Global, path: &Option<Text>, name: &Text) -> Result<Option<Text>, NoMemory>
    ensures { IfOk result (λ made. made ≡ spec.below path.now name.now) }
{
    match path {
        None => Ok(Some(name.copy(alloc)?)),
        Some(path) => Ok(Some(joined(alloc, &[as_str(path), ".", as_str(name)])?)),
    }
}

/// The path of an item, counted from 0, of the list that stands at the path.
pub fn at_item(alloc: Global, path: &Option<Text>, place: u64) -> Result<Option<Text>, NoMemory>
    ensures { IfOk result (λ made. made ≡ spec.at_item path.now place) }
{
    let mut buffer = Buffer::new();
    let number = buffer.format(place);
    match path {
        None => Ok(Some(joined(alloc, &["[", number, "]"])?)),
        Some(path) => Ok(Some(joined(alloc, &[as_str(path), "[", number, "]"])?)),
    }
}

fn path_text(alloc: Global, path: &Option<Text>) -> Result<Text, NoMemory>
    ensures { IfOk result (λ text. text ≡ spec.path_text path.now) }
{
    match path {
        None => joined(alloc, &["body"]),
        Some(path) => path.copy(alloc),
    }
}

/// The refusal of the filter that stands at the path.
pub fn bad(alloc: Global, path: &Option<Text>) -> CodecStop
    ensures { StopsWith (BadFilter (spec.path_text path.now)) result }
{
    match path_text(alloc, path) {
        Ok(path) => CodecStop::Refused(Refusal::BadFilter { path }),
        Err(_) => CodecStop::NoMemory,
    }
}
