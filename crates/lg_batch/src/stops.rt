//! Refusals of a line.

ghost use Rattle.std.specs.Prelude.{◌≡◌, IfOk};
ghost use Rattle.lg_codec.specs.Stops.{StopsWith};
ghost use Rattle.lg_codec.specs.declared.stop.CodecStop.TheVariants.{Refused};
ghost use Rattle.lg_types.specs.declared.refusals.Refusal.TheVariants.{LineJson, LineMember};
ghost use Rattle.lg_readings.specs.Script.{line_fault};
ghost use Rattle.lg_batch.specs.Reads.{stop_of};

use lg_base::NoMemory;
use lg_codec::CodecStop;
use lg_json::JsonFault;
use lg_types::{FaultKind, Reason, Refusal, Text};
use std::alloc::Global;

fn text_of(alloc: Global, text: &str) -> Result<Text, NoMemory>
    ensures { IfOk result (λ copied. copied ≡ text.now) }
{
    Ok(Text::from_vec(Vec::from_slice(alloc, text.as_bytes())?))
}

/// The refusal of a member.
pub fn bad_member(alloc: Global, name: &str, reason: Reason) -> CodecStop
    ensures { StopsWith (LineMember name.now reason) result }
{
    match text_of(alloc, name) {
        Ok(member) => CodecStop::Refused(Refusal::LineMember { member, reason }),
        Err(_) => CodecStop::NoMemory,
    }
}

fn bad_text(fault: FaultKind, place: usize) -> CodecStop
    ensures { result ≡ Refused (LineJson fault place) }
{
    CodecStop::Refused(Refusal::LineJson {
        fault,
        place: place as u64,
    })
}

/// The refusal of a line that is no JSON text.
pub fn bad_line(fault: JsonFault) -> CodecStop
    ensures { result ≡ stop_of (line_fault fault) }
{
    match fault {
        JsonFault::Syntax { place } => bad_text(FaultKind::Syntax, place),
        JsonFault::NotWhole { place } => bad_text(FaultKind::NotWhole, place),
        JsonFault::TooWide { place } => bad_text(FaultKind::TooWide, place),
        JsonFault::TooDeep { place } => bad_text(FaultKind::TooDeep, place),
        JsonFault::Repeated { place } => bad_text(FaultKind::Repeated, place),
        JsonFault::NoMemory => CodecStop::NoMemory,
    }
}
