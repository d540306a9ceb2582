//! What is open: lists, objects, and the values that stand in them.
ghost use Rattle.std.specs.Prelude.{◌≡◌, ◌⊎◌, List, [], ◌∷◌, OnOk, MatchOption, Ok};
ghost use Rattle.lg_json.specs.Reading as machine;
ghost use Rattle.lg_json.specs.Tree.{tree};
ghost use Rattle.lg_json.specs.View.{Gives, standing, frame_view, frames_view, next_view, AfterComma, IsClosed};

use crate::json::{Json, JsonFault};
use crate::state::{Frame, Next, OpenFrames};
use lg_containers::Text;
use sqlite_items::Boxed;
use std::alloc::{AllocError, Global};

/// The most lists and objects that are open at once.
const MOST_OPEN: usize = 64;

/// Puts a value where one was to come.
#[inline(always)]
fn put_value(frame: &mut Frame, value: Json) -> Result<(), AllocError>
    ensures { OnOk result (frame_view frame.new ≡ machine.with_value (frame_view frame.old) (tree value)) }
{
    match frame {
        Frame::List(items) => items.push(value),
        Frame::Object(object) => object.put_value(value),
    }
}

/// What comes after a value that is complete.
#[inline(always)]
pub fn complete(alloc: Global, frames: &mut OpenFrames, value: Json) -> Result<Next, JsonFault>
    ensures { Gives (standing frames.new.items) result (Ok (machine.complete (frames_view frames.old.items) (tree value))) }
{
    match frames.last_mut() {
        Some(frame) => {
            put_value(frame, value)?;
            Ok(Next::Comma)
        }
        None => Ok(Next::End(Boxed::new(alloc, value)?)),
    }
}

/// What comes after `[` or `{` at `place`.
pub fn open_frame(
    place: usize,
    frames: &mut OpenFrames,
    frame: Frame,
    next: Next,
) -> Result<Next, JsonFault>
    ensures { Gives (standing frames.new.items) result (machine.open_frame place (frames_view frames.old.items) (frame_view frame) (next_view next)) }
{
    if frames.len() < MOST_OPEN {
        push_frame(frames, frame)?;
        Ok(next)
    } else {
        Err(JsonFault::TooDeep { place })
    }
}

fn push_frame(frames: &mut OpenFrames, frame: Frame) -> Result<(), AllocError>
    ensures { OnOk result (frames_view frames.new.items ≡ frame_view frame ∷ frames_view frames.old.items) }
{
    frames.push(frame)?;
    Ok(())
}

/// The innermost of what is open, which ends.
fn pop_frame(frames: &mut OpenFrames) -> Option<Frame>
    ensures { MatchOption result (frames_view frames.old.items ≡ []) (λ frame. frames_view frames.old.items ≡ frame_view frame ∷ frames_view frames.new.items) }
{
    frames.pop()
}

/// What comes after a list or an object that ends at `place` with no item.
pub fn close_empty(
    alloc: Global,
    place: usize,
    frames: &mut OpenFrames,
    value: Json,
) -> Result<Next, JsonFault>
    ensures { Gives (standing frames.new.items) result (machine.close_empty place (frames_view frames.old.items) (tree value)) }
{
    match pop_frame(frames) {
        Some(_) => complete(alloc, frames, value),
        None => Err(JsonFault::Syntax { place }),
    }
}

/// The value of the list or the object that the byte ends, where it ends the innermost that is open.
fn closed(frame: Frame, byte: u8) -> Option<Json>
    requires { (byte ≡ 93) ⊎ (byte ≡ 125) }
    ensures { IsClosed (frame_view frame) byte result }
{
    match frame {
        Frame::List(items) => {
            if byte == b']' {
                return Some(Json::List(items));
            }
            None
        }
        Frame::Object(object) => {
            if byte == b'}' && !object.is_waiting() {
                return Some(Json::Members(object.into_members()));
            }
            None
        }
    }
}

/// What comes after `]` or `}` at `place`, the end of a list or of an object.
fn close(alloc: Global, place: usize, frames: &mut OpenFrames, byte: u8) -> Result<Next, JsonFault>
    requires { (byte ≡ 93) ⊎ (byte ≡ 125) }
    ensures { Gives (standing frames.new.items) result (machine.follow_on place (frames_view frames.old.items) byte) }
{
    let Some(frame) = pop_frame(frames) else {
        return Err(JsonFault::Syntax { place });
    };
    match closed(frame, byte) {
        Some(value) => complete(alloc, frames, value),
        None => Err(JsonFault::Syntax { place }),
    }
}

/// What comes after a byte at `place`, no blank, that follows an item or a member.
pub fn follow_on(
    alloc: Global,
    place: usize,
    frames: &mut OpenFrames,
    byte: u8,
) -> Result<Next, JsonFault>
    ensures { Gives (standing frames.new.items) result (machine.follow_on place (frames_view frames.old.items) byte) }
{
    match byte {
        b',' => match next_after_comma(frames) {
            Some(next) => Ok(next),
            None => Err(JsonFault::Syntax { place }),
        },
        b']' | b'}' => close(alloc, place, frames, byte),
        _ => Err(JsonFault::Syntax { place }),
    }
}

/// What comes after a comma in what is open.
fn next_after_comma(frames: &OpenFrames) -> Option<Next>
    ensures { AfterComma (frames_view frames.now.items) result }
{
    match frames.last()? {
        Frame::List(_) => Some(Next::Value),
        Frame::Object(object) => {
            if object.is_waiting() {
                return None;
            }
            Some(Next::Name)
        }
    }
}

/// What comes after a name in the innermost that is open.
fn name_member(
    alloc: Global,
    place: usize,
    quote: usize,
    frame: &mut Frame,
    name: Text,
) -> Result<Next, JsonFault>
    ensures { (fs : List machine.Frame) → Gives (λ n. machine.at (frame_view frame.new ∷ fs) (next_view n)) result (machine.with_name place quote (frame_view frame.old ∷ fs) name) }
{
    match frame {
        Frame::List(_) => Err(JsonFault::Syntax { place }),
        Frame::Object(object) => {
            if object.is_waiting() {
                return Err(JsonFault::Syntax { place });
            }
            if object.name_next(alloc, name)? {
                Ok(Next::Colon)
            } else {
                Err(JsonFault::Repeated { place: quote })
            }
        }
    }
}

/// What comes after a member's name, which was quoted from `quote` on and ended at `place`.
pub fn with_name(
    alloc: Global,
    place: usize,
    quote: usize,
    frames: &mut OpenFrames,
    name: Text,
) -> Result<Next, JsonFault>
    ensures { Gives (standing frames.new.items) result (machine.with_name place quote (frames_view frames.old.items) name) }
{
    match frames.last_mut() {
        Some(frame) => name_member(alloc, place, quote, frame, name),
        None => Err(JsonFault::Syntax { place }),
    }
}
