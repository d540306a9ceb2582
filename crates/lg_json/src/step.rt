//! One step of the reading: a value that has no part, a name, or one of `[ ] { } : ,`.
ghost use Rattle.std.specs.Prelude.{◌≡◌, ◌+◌, ◌<◌, ◌≤◌, Ok, false, length, drop, slice_index, List, IsTrue, ◌↔◌};
ghost use Rattle.lg_json.specs.Reading as machine;
ghost use Rattle.lg_json.specs.Tokens.{Moves, IsNumberByte, IsOtherByte, begins};
ghost use Rattle.lg_json.specs.Tree.{tree};
ghost use Rattle.lg_json.specs.View.{standing, frame_view, frames_view, next_view, placed};
ghost use Rattle.lg_json.specs.declared.state.TextMode.TheVariants.{Character};
ghost use Rattle.lg_containers.specs.declared.utf8.Utf8State.TheVariants.{Boundary};

use crate::json::{Json, JsonFault};
use crate::number::read_number;
use crate::object::OpenObject;
use crate::open::{close_empty, complete, follow_on, open_frame, with_name};
use crate::state::{Frame, Next, OpenFrames};
use crate::text::read_text;
use crate::word::read_word;
use sqlite_items::Items;
use std::alloc::Global;

/// What comes next, where there is no fault, with the place after what was read.
#[inline(always)]
fn at_place(outcome: Result<Next, JsonFault>, place: usize) -> Result<(Next, usize), JsonFault>
    ensures { result ≡ placed outcome place }
{
    match outcome {
        Ok(next) => Ok((next, place)),
        Err(fault) => Err(fault),
    }
}

/// A text that is a value, from its first quote on.
#[inline(always)]
fn begin_text(
    alloc: Global,
    bytes: &[u8],
    place: usize,
    frames: &mut OpenFrames,
) -> Result<(Next, usize), JsonFault>
    requires within { place < length bytes.now }
    requires quote { slice_index bytes.now place ≡ 34 }
    ensures { Moves bytes.now place (begins place (frames_view frames.old.items) (drop place bytes.now)) frames.new.items result }
{
    let (text, quote) = read_text(alloc, bytes, place + 1)?;
    at_place(complete(alloc, frames, Json::Text(text)), quote + 1)
}

/// A number from its first byte on.
#[inline(always)]
fn begin_number(
    alloc: Global,
    bytes: &[u8],
    place: usize,
    frames: &mut OpenFrames,
) -> Result<(Next, usize), JsonFault>
    requires within { place < length bytes.now }
    requires byte { IsNumberByte (slice_index bytes.now place) }
    ensures { Moves bytes.now place (begins place (frames_view frames.old.items) (drop place bytes.now)) frames.new.items result }
{
    let (number, end) = read_number(bytes, place)?;
    at_place(complete(alloc, frames, Json::Whole(number)), end)
}

/// A word whose first byte is followed by `rest`.
fn begin_word(
    alloc: Global,
    bytes: &[u8],
    place: usize,
    frames: &mut OpenFrames,
    rest: &[u8],
    value: Json,
) -> Result<(Next, usize), JsonFault>
    requires within { place < length bytes.now }
    requires some { 0 < length rest.now }
    requires first { (fs : List machine.Frame) → machine.begin place fs (slice_index bytes.now place) ≡ Ok (machine.at fs (machine.Mode.in_word rest.now (tree value))) }
    ensures { Moves bytes.now place (begins place (frames_view frames.old.items) (drop place bytes.now)) frames.new.items result }
{
    let end = read_word(bytes, place + 1, rest)?;
    at_place(complete(alloc, frames, value), end)
}

/// A list or an object that begins.
#[inline(always)]
fn begin_frame(
    bytes: &[u8],
    place: usize,
    frames: &mut OpenFrames,
    frame: Frame,
    next: Next,
) -> Result<(Next, usize), JsonFault>
    requires within { place < length bytes.now }
    requires first { (fs : List machine.Frame) → machine.begin place fs (slice_index bytes.now place) ≡ machine.open_frame place fs (frame_view frame) (next_view next) }
    ensures { Moves bytes.now place (begins place (frames_view frames.old.items) (drop place bytes.now)) frames.new.items result }
{
    at_place(open_frame(place, frames, frame, next), place + 1)
}

/// Whether a number begins with the byte.
fn is_number_byte(byte: u8) -> bool
    ensures { IsTrue result ↔ IsNumberByte byte }
{
    matches!(byte, b'-' | b'0'..=b'9')
}

/// A number, or no value.
fn begin_other(
    alloc: Global,
    bytes: &[u8],
    place: usize,
    frames: &mut OpenFrames,
) -> Result<(Next, usize), JsonFault>
    requires within { place < length bytes.now }
    requires other { IsOtherByte (slice_index bytes.now place) }
    ensures { Moves bytes.now place (begins place (frames_view frames.old.items) (drop place bytes.now)) frames.new.items result }
{
    if is_number_byte(bytes[place]) {
        begin_number(alloc, bytes, place, frames)
    } else {
        Err(JsonFault::Syntax { place })
    }
}

/// A value from its first byte on.
fn begin(
    alloc: Global,
    bytes: &[u8],
    place: usize,
    frames: &mut OpenFrames,
) -> Result<(Next, usize), JsonFault>
    requires { place < length bytes.now }
    ensures { Moves bytes.now place (begins place (frames_view frames.old.items) (drop place bytes.now)) frames.new.items result }
{
    match bytes[place] {
        b'"' => begin_text(alloc, bytes, place, frames),
        b'[' => begin_frame(
            bytes,
            place,
            frames,
            Frame::List(Items::new(alloc)),
            Next::First,
        ),
        b'{' => begin_frame(
            bytes,
            place,
            frames,
            Frame::Object(OpenObject::new(alloc)),
            Next::FirstName,
        ),
        b'n' => begin_word(alloc, bytes, place, frames, b"ull", Json::Null),
        b't' => begin_word(alloc, bytes, place, frames, b"rue", Json::Truth(true)),
        b'f' => begin_word(alloc, bytes, place, frames, b"alse", Json::Truth(false)),
        _ => begin_other(alloc, bytes, place, frames),
    }
}

/// A name from its first quote on.
#[inline(always)]
fn begin_name(
    alloc: Global,
    bytes: &[u8],
    place: usize,
    frames: &mut OpenFrames,
) -> Result<(Next, usize), JsonFault>
    requires { place < length bytes.now }
    ensures { Moves bytes.now place (machine.reads (place + 1) (machine.begin_name place (frames_view frames.old.items)) (drop (place + 1) bytes.now)) frames.new.items result }
{
    let (name, quote) = read_text(alloc, bytes, place + 1)?;
    at_place(with_name(alloc, quote, place, frames, name), quote + 1)
}

/// A list's first item, or its end.
#[inline(always)]
fn step_first(
    alloc: Global,
    bytes: &[u8],
    place: usize,
    frames: &mut OpenFrames,
) -> Result<(Next, usize), JsonFault>
    requires within { place < length bytes.now }
    requires no_blank { machine.is_blank (slice_index bytes.now place) ≡ false }
    ensures { Moves bytes.now place (machine.reads place (machine.at (frames_view frames.old.items) machine.Mode.before_first) (drop place bytes.now)) frames.new.items result }
{
    if bytes[place] == b']' {
        let value = Json::List(Items::new(alloc));
        at_place(close_empty(alloc, place, frames, value), place + 1)
    } else {
        begin(alloc, bytes, place, frames)
    }
}

/// An object's first name, or its end.
#[inline(always)]
fn step_first_name(
    alloc: Global,
    bytes: &[u8],
    place: usize,
    frames: &mut OpenFrames,
) -> Result<(Next, usize), JsonFault>
    requires within { place < length bytes.now }
    requires no_blank { machine.is_blank (slice_index bytes.now place) ≡ false }
    ensures { Moves bytes.now place (machine.reads place (machine.at (frames_view frames.old.items) machine.Mode.before_first_name) (drop place bytes.now)) frames.new.items result }
{
    if bytes[place] == b'"' {
        return begin_name(alloc, bytes, place, frames);
    }
    if bytes[place] == b'}' {
        let value = Json::Members(Items::new(alloc));
        return at_place(close_empty(alloc, place, frames, value), place + 1);
    }
    Err(JsonFault::Syntax { place })
}

/// A name after a comma.
#[inline(always)]
fn step_name(
    alloc: Global,
    bytes: &[u8],
    place: usize,
    frames: &mut OpenFrames,
) -> Result<(Next, usize), JsonFault>
    requires within { place < length bytes.now }
    requires no_blank { machine.is_blank (slice_index bytes.now place) ≡ false }
    ensures { Moves bytes.now place (machine.reads place (machine.at (frames_view frames.old.items) machine.Mode.before_name) (drop place bytes.now)) frames.new.items result }
{
    if bytes[place] == b'"' {
        return begin_name(alloc, bytes, place, frames);
    }
    Err(JsonFault::Syntax { place })
}

/// The colon after a name.
#[inline(always)]
fn step_colon(
    bytes: &[u8],
    place: usize,
    frames: &mut OpenFrames,
) -> Result<(Next, usize), JsonFault>
    requires within { place < length bytes.now }
    requires no_blank { machine.is_blank (slice_index bytes.now place) ≡ false }
    ensures { Moves bytes.now place (machine.reads place (machine.at (frames_view frames.old.items) machine.Mode.before_colon) (drop place bytes.now)) frames.new.items result }
{
    if bytes[place] == b':' {
        return Ok((Next::Value, place + 1));
    }
    Err(JsonFault::Syntax { place })
}

/// What follows an item or a member.
#[inline(always)]
fn step_comma(
    alloc: Global,
    bytes: &[u8],
    place: usize,
    frames: &mut OpenFrames,
) -> Result<(Next, usize), JsonFault>
    requires within { place < length bytes.now }
    requires no_blank { machine.is_blank (slice_index bytes.now place) ≡ false }
    ensures { Moves bytes.now place (machine.reads place (machine.at (frames_view frames.old.items) machine.Mode.after_item) (drop place bytes.now)) frames.new.items result }
{
    at_place(follow_on(alloc, place, frames, bytes[place]), place + 1)
}

/// What comes next after the step at a byte that is no blank, and the place after it.
#[inline(always)]
pub fn step(
    alloc: Global,
    bytes: &[u8],
    place: usize,
    frames: &mut OpenFrames,
    next: &Next,
) -> Result<(Next, usize), JsonFault>
    requires within { place < length bytes.now }
    requires no_blank { machine.is_blank (slice_index bytes.now place) ≡ false }
    ensures { Moves bytes.now place (machine.reads place (standing frames.old.items next.now) (drop place bytes.now)) frames.new.items result }
{
    match next {
        Next::Value => begin(alloc, bytes, place, frames),
        Next::First => step_first(alloc, bytes, place, frames),
        Next::FirstName => step_first_name(alloc, bytes, place, frames),
        Next::Name => step_name(alloc, bytes, place, frames),
        Next::Colon => step_colon(bytes, place, frames),
        Next::Comma => step_comma(alloc, bytes, place, frames),
        Next::End(_) => Err(JsonFault::Syntax { place }),
    }
}
