//! What becomes of a call.

ghost use Rattle.std.specs.Prelude.{◌≡◌, IfOk};
ghost use Rattle.lg_weigh.specs.Lent.{AreParts};
ghost use Rattle.lg_weigh.specs.Weighing.{weighed as weighed_of};
ghost use Rattle.lg_decide.specs.Decisions.{IsDecided, IsOutcome, known_to, needed};

use crate::decisions::Decision;
use crate::ledgers::decide_ledger;
use crate::logged::decide_logged;
use lg_book::Book;
use lg_shard::Shards;
use lg_types::{Call, NoMemory};
use lg_weigh::Weighed;
use std::alloc::Global;

/// What becomes of a call that makes a ledger or writes to one, at the moment `now` in microseconds since
/// 1970-01-01T00:00:00Z: its outcome after the events of the book. A call that reads isn't decided, and lists of writes
/// and imports aren't yet.
///
/// The shards of the stripes that the call needs are lent, as they are after the events of the book, and `weighed` is what
/// they say of the call; of a revert both are by the book's transaction of its id.
pub fn decide<S: Shards>(
    alloc: Global,
    call: &Call,
    weighed: Weighed,
    now: i64,
    lent: &S,
    book: &Book,
) -> Result<Decision, NoMemory>
    requires kind { IsDecided call.now }
    requires parts { AreParts (needed book.now.events call.now) (S.lent lent.now) book.now.events }
    requires weighed { weighed ≡ weighed_of book.now.events call.now (known_to book.now.events call.now) }
    ensures { IfOk result (λ decision. IsOutcome book.now.events call.now now decision) }
{
    match call {
        Call::MakeLedger {
            ledger,
            bucket,
            metadata,
        } => decide_ledger(alloc, ledger, bucket, metadata, &now, book),
        Call::Write { ledger, key, write } => {
            decide_logged(alloc, ledger, key, write, weighed, now, lent, book)
        }
        Call::Unreadable(_) => unreachable!(),
        Call::Bulk { .. } => unreachable!(),
        Call::Import { .. } => unreachable!(),
        Call::Ledgers { .. } => unreachable!(),
        Call::Read { .. } => unreachable!(),
    }
}
