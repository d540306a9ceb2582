//! Reading the bytes of a line of a log.

ghost use Rattle.std.specs.Prelude.{◌≡◌};
ghost use Rattle.lg_json.specs.Tree.{tree};
ghost use Rattle.lg_types.specs.EntryTexts.{entry_text};
ghost use Rattle.lg_types.specs.declared.forms.EntryForm.TheVariants.{Line, FirstLine};
ghost use Rattle.lg_types.specs.declared.records.Entry.{Entry};
ghost use Rattle.lg_readings.specs.Checked.{IsCause};
ghost use Rattle.lg_views.specs.Import.{Unread};
ghost use Rattle.lg_entry_lines.specs.Laws.{IsMemberRefusal};
ghost use Rattle.lg_entry_lines.specs.Lines.{IsReadLine, IsReadValue, IsFaultOf, Found};
ghost use Rattle.lg_types.specs.Records.{IsEntry};

use lg_codec::{CodecStop, entry_of_json};
use lg_json::{Json, JsonFault, read};
use lg_readings::ReadEntry;
use lg_types::{ImportCause, Refusal};
use std::alloc::Global;

/// Why a line isn't read.
#[derive(Drop)]
pub enum LineFault {
    /// It is no JSON text, or no line of an entry: the path of its first bad member.
    Bad(ImportCause),
    NoMemory,
}

/// The cause that the refusal of a member is.
fn cause_of(refusal: Refusal) -> ImportCause
    requires { IsMemberRefusal refusal }
    ensures { IsCause refusal (Unread result) }
{
    match refusal {
        Refusal::Member { path, reason: _ } => ImportCause::Member { path },
        _ => unreachable!(),
    }
}

fn entry_of_value(alloc: Global, line: &Json, recompute: bool) -> Result<ReadEntry, LineFault>
    ensures { IsReadValue recompute (tree line.now) result }
{
    match entry_of_json(alloc, line, recompute) {
        Ok(found) => Ok(found),
        Err(CodecStop::Refused(refusal)) => Err(LineFault::Bad(cause_of(refusal))),
        Err(CodecStop::NoMemory) => Err(LineFault::NoMemory),
    }
}

/// Why bytes that aren't read as JSON are no line.
fn fault_of(fault: JsonFault) -> LineFault
    ensures { IsFaultOf fault result }
{
    match fault {
        JsonFault::Syntax { .. }
        | JsonFault::NotWhole { .. }
        | JsonFault::TooWide { .. }
        | JsonFault::TooDeep { .. }
        | JsonFault::Repeated { .. } => LineFault::Bad(ImportCause::Json),
        JsonFault::NoMemory => LineFault::NoMemory,
    }
}

/// The entry of the bytes of a line of a log of either form, without the line's newline. Where hashes are computed anew, the
/// hash may be absent, and is 32 bytes 0.
pub fn entry_of_line(alloc: Global, line: &[u8], recompute: bool) -> Result<ReadEntry, LineFault>
    // The answer is what the bytes are read as, or why they aren't.
    ensures line { IsReadLine recompute line.now result }

    // An entry's line gives that entry again, in log form 2, unless memory is wanting.
    ensures reads_back { (e : Entry) → IsEntry e → line.now ≡ entry_text e Line → Found (record { entry = e; form = 2 }) result }

    // So does its line of log form 1.
    ensures first_reads_back { (e : Entry) → IsEntry e → line.now ≡ entry_text e FirstLine → Found (record { entry = e; form = 1 }) result }
{
    match read(alloc, line) {
        Ok(value) => entry_of_value(alloc, &value, recompute),
        Err(fault) => Err(fault_of(fault)),
    }
}
