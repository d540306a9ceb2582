//! How long a body is.

ghost use Rattle.std.specs.Prelude.{IfOk};
ghost use Rattle.httparse.specs.Grammar.{RequestHead};
ghost use Rattle.lg_heads.specs.Heads.{IsHeadAt};
ghost use Rattle.lg_http.specs.Bodies.{IsBodySize};

use crate::body_limits::BodyLimits;
use crate::refusal::MessageRefusal;
use lg_base::NoMemory;
use lg_heads::{Framing, Head};

/// How many bytes a body has.
#[derive(Clone, Copy, PartialEq, Eq, Debug)]
pub(crate) enum BodySize {
    /// So many, within the limit.
    Bytes(u32),
    /// Its message is refused.
    Refused(MessageRefusal),
}

/// How many bytes the body behind a whole head has.
pub(crate) fn body_size<L: BodyLimits>(
    bytes: &[u8],
    head: &Head,
    limits: &L,
) -> Result<BodySize, NoMemory>
    requires { (h : RequestHead) × IsHeadAt bytes.now head.now h }
    ensures { (h : RequestHead) → IsHeadAt bytes.now head.now h → IfOk result (IsBodySize L.limit h) }
{
    let size = match head.framing {
        Framing::Bad => return Ok(BodySize::Refused(MessageRefusal::BadHead)),
        Framing::Coded => return Ok(BodySize::Refused(MessageRefusal::CodedBody)),
        Framing::Length(size) => size,
    };
    let most = limits.most(head.method.of(bytes), head.target.of(bytes))?;
    if size <= u64::from(most) {
        Ok(BodySize::Bytes(size as u32))
    } else {
        Ok(BodySize::Refused(MessageRefusal::LongBody))
    }
}
