//! Laws of what a book holds. Each function's contract is a law; there is nothing to run.

ghost use Rattle.lg_book.specs.EntryLaws.{EntriesById};
ghost use Rattle.lg_book.specs.Following.{IsGrown};

use crate::Book;

/// The ids of a ledger's entries count from 1 without gaps, and each entry is found by its own id.
pub fn entries_by_id()
    ensures { EntriesById }
{}

/// Each event of a book may follow those before it.
pub fn grown(book: &Book)
    ensures { IsGrown book.now.events }
{
    let _count = book.len();
}
