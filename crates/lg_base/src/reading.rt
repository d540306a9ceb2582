//! Reading a source to its end.

ghost use Rattle.std.specs.Prelude.{◌≡◌, ◌≤◌, ◌<◌, length, IfOk, IfErr};
ghost use Rattle.lg_base.specs.Reading.{ReadWhole, EndedBy, TakesMore, StopsReading};

use crate::read_end::ReadEnd;
use crate::sink::Failed;
use crate::source::Source;
use std::alloc::{AllocError, Global};

/// How many bytes a read asks for.
const CHUNK: usize = 65536;

/// Reads a source to its end; gives up as soon as more bytes than the limit were taken.
pub fn read_all<S: Source>(alloc: Global, source: &mut S, limit: usize) -> Result<Vec<u8>, ReadEnd>
    ensures whole { IfOk result (λ v. ReadWhole S.Source source.old source.new limit v.items) }
    ensures ended { IfErr result (EndedBy S.Source source.old source.new limit) }
    ensures later { S.faults source.old ≤ S.faults source.new }
{
    let mut chunk = zeros(alloc, CHUNK)?;
    let mut bytes = Vec::new(alloc);
    'reading: while bytes.len() <= limit {
        let count = read_more(source, chunk.as_mut_slice(), &mut bytes)?;
        if count == 0 {
            return Ok(bytes);
        }
    }
    Err(ReadEnd::Limit)
}

/// Reads once, and puts what was read behind the bytes. Answers how many bytes that were.
fn read_more<S: Source>(
    source: &mut S,
    chunk: &mut [u8],
    bytes: &mut Vec<u8>,
) -> Result<usize, ReadEnd>
    requires { 0 < length chunk.old }
    ensures bytes { IfOk result (λ n. TakesMore S.Source source.old source.new bytes.old.items bytes.new.items n) }
    ensures ended { IfErr result (StopsReading S.Source source.old source.new) }
    ensures later { S.faults source.old ≤ S.faults source.new }
{
    match source.read(chunk) {
        Ok(count) => {
            bytes.extend_from_slice(&chunk[..count])?;
            Ok(count)
        }
        Err(Failed) => Err(ReadEnd::Fault),
    }
}

/// So many bytes 0.
fn zeros(alloc: Global, count: usize) -> Result<Vec<u8>, AllocError>
    ensures { IfOk result (λ v. length v.items ≡ count) }
{
    vec![in alloc; 0u8; count]
}
