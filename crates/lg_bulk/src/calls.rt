//! What becomes of a call that may add events.

ghost use Rattle.std.specs.Prelude.{◌≡◌, IfOk};
ghost use Rattle.lg_weigh.specs.Lent.{AreParts};
ghost use Rattle.lg_weigh.specs.Weighing.{weighed as weighed_of};
ghost use Rattle.lg_decide.specs.Decisions.{IsOutcome, needed, known_to};
ghost use Rattle.lg_bulk.specs.Changes.{IsChange};

use crate::deciding::decide_list;
use lg_book::Book;
use lg_decide::{Decision, decide as decide_single};
use lg_shard::Shards;
use lg_types::{Call, NoMemory};
use lg_weigh::Weighed;
use std::alloc::Global;

/// What becomes of a call that makes a ledger or writes to one, once or by a list, at the moment `now` in microseconds
/// since 1970-01-01T00:00:00Z: its outcome after the events of the book. A call that reads isn't decided, and an import
/// isn't yet.
///
/// The shards of the stripes that the call needs are lent, as they are after the events of the book, and `weighed` is what
/// they say of the call: of a list nothing, since each of its elements is weighed in its turn.
pub fn decide<S: Shards>(
    alloc: Global,
    call: &Call,
    weighed: Weighed,
    now: i64,
    lent: &S,
    book: &Book,
) -> Result<Decision, NoMemory>
    requires kind { IsChange call.now }
    requires parts { AreParts (needed book.now.events call.now) (S.lent lent.now) book.now.events }
    requires weighed { weighed ≡ weighed_of book.now.events call.now (known_to book.now.events call.now) }
    ensures { IfOk result (λ decision. IsOutcome book.now.events call.now now decision) }
{
    match call {
        Call::MakeLedger { .. } => decide_single(alloc, call, weighed, now, lent, book),
        Call::Write { .. } => decide_single(alloc, call, weighed, now, lent, book),
        Call::Bulk {
            ledger,
            elements,
            atomic,
            go_on,
        } => decide_list(alloc, ledger, elements, *atomic, *go_on, now, lent, book),
        Call::Unreadable(_) => unreachable!(),
        Call::Import { .. } => unreachable!(),
        Call::Ledgers { .. } => unreachable!(),
        Call::Read { .. } => unreachable!(),
    }
}
