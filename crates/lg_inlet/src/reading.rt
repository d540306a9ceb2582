//! One read.

ghost use Rattle.std.specs.Prelude.{◌≡◌, ◌<◌, ◌≤◌, length, IfOk, IfErr, OnErr};
ghost use Rattle.lg_base.specs.Reading.{TakesMore};
ghost use Rattle.lg_inlet.specs.Reading.{StopsAppending};

use crate::stopped::Stopped;
use lg_base::{Failed, Source};

/// Reads once into the chunk, and puts what came behind the bytes.
pub(crate) fn append_read<S: Source>(
    source: &mut S,
    chunk: &mut [u8],
    bytes: &mut Vec<u8>,
) -> Result<usize, Stopped>
    requires { 0 < length chunk.old }
    ensures took { IfOk result (TakesMore S.Source source.old source.new bytes.old.items bytes.new.items) }
    ensures bound { IfOk result (λ n. n ≤ length chunk.old) }
    ensures stopped { IfErr result (StopsAppending S.Source source.old source.new bytes.old.items bytes.new.items) }
    ensures kept { OnErr result (bytes.new.items ≡ bytes.old.items) }
    ensures later { S.faults source.old ≤ S.faults source.new }
{
    match source.read(chunk) {
        Ok(count) => {
            bytes.extend_from_slice(&chunk[..count])?;
            Ok(count)
        }
        Err(Failed) => Err(Stopped::Fault),
    }
}
