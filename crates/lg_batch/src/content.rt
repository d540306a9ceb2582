//! What a line of a script says.

ghost use Rattle.std.specs.Prelude.{◌≡◌, IfOk};
ghost use Rattle.std.specs.Option.{option_map};
ghost use Rattle.lg_codec.specs.Seen.{members_seen};
ghost use Rattle.lg_json.specs.Tree.{tree};
ghost use Rattle.lg_routes.specs.Seen.{bytes_seen};
ghost use Rattle.lg_batch.specs.Lines.{ContentWith, ContentIn, ContentBy, LineAnswer, IsLine};
ghost use Rattle.lg_batch.specs.Imports.{IsCallOf};
ghost use Rattle.lg_batch.specs.Reads.{ReadsAs, content_seen};

use crate::bodies::take_body;
use crate::imports::{as_unbuilt, request_body};
use crate::members::{key_member, moment_in, number_member, text_member};
use crate::stops::{bad_line, bad_member};
use lg_base::NoMemory;
use lg_codec::CodecStop;
use lg_json::{Json, Member, MemberList};
use lg_routes::{ListReader, call_of_request};
use lg_types::{Call, Reason, Refusal};
use lg_views::ScriptLine;
use std::alloc::Global;

/// What a line says.
#[derive(Drop)]
pub struct LineContent {
    /// In microseconds since 1970-01-01T00:00:00Z.
    pub moment: i64,
    pub caller: u32,
    pub phase: u32,
    pub call: Call,
}

/// The call of a line's request.
fn call_in<L: ListReader>(
    alloc: Global,
    method: &[u8],
    target: &[u8],
    key: Option<&[u8]>,
    body: Option<Json>,
) -> Result<Call, NoMemory>
    ensures { IfOk result (IsCallOf method.now target.now (bytes_seen key.entry) (option_map tree body)) }
{
    let body = request_body(alloc, method, target, body)?;
    let call = call_of_request::<L>(alloc, method, target, key, body)?;
    Ok(as_unbuilt(call))
}

/// What the members of a line and its body say.
fn content_with<L: ListReader>(
    alloc: Global,
    lowest: u32,
    members: &[Member],
    body: Option<Json>,
) -> Result<LineContent, CodecStop>
    ensures { ReadsAs content_seen (ContentWith lowest (members_seen members.now) (option_map tree body)) result }
{
    let now = text_member(alloc, "now", members)?;
    let moment = moment_in(alloc, now)?;
    let caller = number_member(alloc, "caller", 0, 63, members)?;
    let phase = number_member(alloc, "phase", lowest, 999_999, members)?;
    let method = text_member(alloc, "method", members)?;
    let target = text_member(alloc, "path", members)?;
    let key = key_member(alloc, members)?;
    let call = call_in::<L>(alloc, method, target, key, body)?;
    Ok(LineContent {
        moment,
        caller,
        phase,
        call,
    })
}

/// What the members of a line say.
fn content_in<L: ListReader>(
    alloc: Global,
    lowest: u32,
    mut members: MemberList,
) -> Result<LineContent, CodecStop>
    ensures { ReadsAs content_seen (ContentIn lowest (members_seen members)) result }
{
    let body = take_body(&mut members);
    content_with::<L>(alloc, lowest, members.as_slice(), body)
}

fn content_by<L: ListReader>(
    alloc: Global,
    lowest: u32,
    value: Json,
) -> Result<LineContent, CodecStop>
    ensures { ReadsAs content_seen (ContentBy lowest (tree value)) result }
{
    match value {
        Json::Members(members) => content_in::<L>(alloc, lowest, members),
        _ => Err(bad_member(alloc, "", Reason::Kind)),
    }
}

/// What the bytes of a line say, or its first refusal.
fn read_content<L: ListReader>(
    alloc: Global,
    lowest: u32,
    bytes: &[u8],
) -> Result<LineContent, CodecStop>
    ensures { ReadsAs content_seen (LineAnswer lowest bytes.now) result }
{
    match lg_json::read(alloc, bytes) {
        Ok(value) => content_by::<L>(alloc, lowest, value),
        Err(fault) => Err(bad_line(fault)),
    }
}

/// The line of this number and these bytes, after a line of this phase.
pub fn read_line<L: ListReader>(
    alloc: Global,
    number: u64,
    phase: u32,
    bytes: &[u8],
) -> Result<ScriptLine, NoMemory>
    ensures { IfOk result (IsLine phase (number, bytes.now)) }
{
    match read_content::<L>(alloc, phase, bytes) {
        Ok(
            LineContent {
                moment,
                caller,
                phase,
                call,
            },
        ) => Ok(ScriptLine {
            line: number,
            caller,
            phase,
            moment,
            call,
        }),
        Err(CodecStop::Refused(refusal)) => Ok(ScriptLine {
            line: number,
            caller: 0,
            phase,
            moment: 0,
            call: Call::Unreadable(refusal),
        }),
        Err(CodecStop::NoMemory) => Err(NoMemory),
    }
}
