//! What is found in bytes, without the places in them.

ghost use Rattle.std.specs.Prelude.{◌<◌};

use lg_base::MemSource;
use lg_heads::Framing;
use lg_inlet::{Found, Inbox};
use std::alloc::Global;
use std::test::Fail;

/// More bytes than any test has.
pub const ALLOWANCE: u64 = 4294967296;

/// What stands at the front of some bytes.
#[derive(Clone, Copy, PartialEq, Eq, Debug)]
pub enum Answer {
    Whole {
        len: usize,
        framing: Framing,
        closes: bool,
    },
    Bad,
    Long,
    Cut,
    Closed,
}

/// A whole head of so many bytes.
pub fn whole(len: usize, framing: Framing, closes: bool) -> Answer {
    Answer::Whole {
        len,
        framing,
        closes,
    }
}

/// What was found, without places.
pub fn answer_of(found: Found) -> Answer {
    match found {
        Found::Whole(head) => whole(head.len, head.framing, head.closes),
        Found::Bad => Answer::Bad,
        Found::Long => Answer::Long,
        Found::Cut => Answer::Cut,
        Found::Closed => Answer::Closed,
    }
}

/// What is found at the front of the bytes, which come in pieces of this size.
pub fn found_in(alloc: Global, bytes: &[u8], piece: usize) -> Result<Answer, Fail>
    requires { 0 < piece }
{
    let mut source = MemSource::new(bytes.to_vec(alloc)?, Vec::new(alloc), piece);
    let mut inbox = Inbox::new(alloc, ALLOWANCE)?;
    Ok(answer_of(inbox.find_head(&mut source)?))
}
