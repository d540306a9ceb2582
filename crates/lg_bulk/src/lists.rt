//! The loop over a list.

ghost use Rattle.std.specs.Prelude.{◌≡◌, IfOk, length};
ghost use Rattle.lg_types.specs.Log.{log};
ghost use Rattle.lg_views.specs.Bulk.{batched, bulk_answer};
ghost use Rattle.lg_bulk.specs.Gathering.{ComesTo, Ground, IsGathered, IsTurn};

use crate::elements::take_element;
use crate::gathered::{Gathered, Gathering, Turn};
use lg_book::Book;
use lg_shard::Shards;
use lg_types::{Element, Elements, LedgerName, NoMemory};
use lg_views::BulkItem;
use std::alloc::Global;

/// Tries the elements of a list in their order, at the moment `now` in microseconds since 1970-01-01T00:00:00Z. The ledger
/// has so many entries.
///
/// An atomic list ends with the first element that fails, and so does every list that isn't to go on.
pub fn gather<S: Shards>(
    alloc: Global,
    ledger: &LedgerName,
    elements: &Elements,
    atomic: bool,
    go_on: bool,
    now: &i64,
    logged: u64,
    lent: &S,
    book: &Book,
) -> Result<Gathering, NoMemory>
    requires ground { Ground (S.lent lent.now) book.now.events ledger.now }
    requires logged { logged ≡ length (log book.now.events ledger.now) }
    ensures { IfOk result (λ gathering. ComesTo (log book.now.events ledger.now) (bulk_answer atomic (batched (log book.now.events ledger.now) 0 go_on now.now elements.now)) gathering) }
{
    let mut gathered = Gathered::nothing(alloc);
    for (place, element) in elements.as_slice().iter().enumerate() {
        let turn = take_turn(
            alloc,
            ledger,
            element,
            place as u64,
            atomic,
            go_on,
            now,
            logged,
            lent,
            book,
            &mut gathered,
        )?;
        match turn {
            Turn::GoOn => {}
            Turn::End => return Ok(Gathering::Complete(gathered)),
            Turn::Fail(failed) => return Ok(Gathering::Failed(failed)),
        }
    }
    Ok(Gathering::Complete(gathered))
}

/// Tries the element at the place, counted from 0, after those before it.
fn take_turn<S: Shards>(
    alloc: Global,
    ledger: &LedgerName,
    element: &Element,
    place: u64,
    atomic: bool,
    go_on: bool,
    now: &i64,
    logged: u64,
    lent: &S,
    book: &Book,
    gathered: &mut Gathered,
) -> Result<Turn, NoMemory>
    requires ground { Ground (S.lent lent.now) book.now.events ledger.now }
    requires logged { logged ≡ length (log book.now.events ledger.now) }
    requires gathered { IsGathered (log book.now.events ledger.now) gathered.old }
    ensures { IfOk result (λ turn. IsTurn (log book.now.events ledger.now) atomic go_on now.now gathered.old place element.now gathered.new turn) }
{
    let refused = take_element(alloc, ledger, element, now, logged, lent, book, gathered)?;
    match refused {
        None => Ok(Turn::GoOn),
        Some(refusal) => {
            let failed = BulkItem::Failed {
                element: place,
                refusal,
            };
            if atomic {
                return Ok(Turn::Fail(failed));
            }
            gathered.results.push(failed)?;
            if go_on { Ok(Turn::GoOn) } else { Ok(Turn::End) }
        }
    }
}
