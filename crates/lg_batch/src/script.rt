//! Scripts.

ghost use Rattle.std.specs.Prelude.{◌≡◌, length, IfOk, slice_get};
ghost use Rattle.std.specs.Option.{option_copied};
ghost use Rattle.lg_batch.specs.Lines.{AreLines};
ghost use Rattle.lg_batch.specs.Reads.{Appends};

use crate::content::read_line;
use crate::text_lines::cut_line;
use lg_base::NoMemory;
use lg_routes::ListReader;
use lg_views::ScriptLine;
use std::alloc::Global;
use std::marker::Model;

/// A script, seen as the list of its lines.
#[derive(Drop)]
pub struct Script {
    lines: Vec<ScriptLine>,
}

impl Model for Script {
    ghost use Rattle.std.specs.Prelude.{List};
    ghost use Rattle.std.specs.Coded.{coded_list};
    ghost use Rattle.lg_views.specs.contracts.lines.ScriptLine as line;
    ghost use Rattle.lg_views.specs.declared.lines.ScriptLine.{ScriptLine};

    ghost Value = { List ScriptLine };

    ghost coded = { coded_list line.the_row.coded };

    ghost view = { λ s. s.lines.items };
}

impl Script {
    /// The lines.
    pub fn as_slice(&self) -> &[ScriptLine]
        ensures { result.now ≡ self.now }
    {
        self.lines.as_slice()
    }

    /// How many lines there are.
    pub fn len(&self) -> usize
        ensures { result ≡ length self.now }
    {
        self.lines.len()
    }

    /// The line at the place, counted from 0, and `None` exactly past the end.
    pub fn get(&self, place: usize) -> Option<&ScriptLine>
        ensures { option_copied result ≡ slice_get self.now place }
    {
        self.lines.get(place)
    }
}

/// The script of these bytes: its lines are cut at newlines, a carriage return before a newline is dropped, and a line
/// without bytes is counted and left out. A line that can't be read is a call that is refused.
pub fn read_script<L: ListReader>(alloc: Global, bytes: &[u8]) -> Result<Script, NoMemory>
    ensures { IfOk result (λ s. AreLines bytes.now s) }
{
    match read_lines::<L>(alloc, bytes) {
        Ok(lines) => Ok(Script { lines }),
        Err(_) => Err(NoMemory),
    }
}

fn read_lines<L: ListReader>(alloc: Global, bytes: &[u8]) -> Result<Vec<ScriptLine>, NoMemory>
    ensures { IfOk result (λ v. AreLines bytes.now v.items) }
{
    let mut lines = Vec::new(alloc);
    let mut number: u64 = 1;
    let mut phase = 0;
    let mut rest = bytes;
    'lines: while !rest.is_empty() {
        let (line, after) = cut_line(rest);
        phase = append_line::<L>(alloc, &mut lines, number, phase, line)?;
        number += 1;
        rest = after;
    }
    Ok(lines)
}

/// Appends the line, where it has bytes, and gives the phase that the next line follows.
fn append_line<L: ListReader>(
    alloc: Global,
    lines: &mut Vec<ScriptLine>,
    number: u64,
    phase: u32,
    bytes: &[u8],
) -> Result<u32, NoMemory>
    ensures { IfOk result (Appends phase number bytes.now lines.old.items lines.new.items) }
{
    if bytes.is_empty() {
        return Ok(phase);
    }
    let line = read_line::<L>(alloc, number, phase, bytes)?;
    let after = line.phase;
    lines.push(line)?;
    Ok(after)
}
