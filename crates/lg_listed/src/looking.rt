//! What a ledger's log and earlier entries say of a write.

ghost use Rattle.std.specs.Prelude.{◌≡◌, ◌<◌, ◌^◌, ◌++◌, true, length};
ghost use Rattle.std.specs.Option.{option_copied, option_and_then};
ghost use Rattle.lg_types.specs.Known.{transactions as transactions_of};
ghost use Rattle.lg_types.specs.Log.{log, is_there};
ghost use Rattle.lg_decide.specs.Looking.{named_id as id_of_write, target_id as id_of_target, transaction_at, reverted_by};

use crate::found::{count_with, find_made, find_reverting};
use lg_book::Book;
use lg_decide::Looked;
use lg_types::{Entry, LedgerName, Target, Transaction, Write};

/// What is looked up for a write to a ledger that is there, in the book and in the earlier entries. `used` is the
/// transaction of its reference.
pub fn look_up<'a>(
    ledger: &LedgerName,
    write: &Write,
    used: Option<u64>,
    book: &'a Book,
    earlier: &'a [Entry],
) -> Looked<'a>
    requires there { is_there book.now.events ledger.now ≡ true }
    requires room { length (log book.now.events ledger.now ++ earlier.now) < 2 ^ 64 }
    ensures count { result.transactions ≡ length (transactions_of (log book.now.events ledger.now ++ earlier.now)) }
    ensures known { option_copied result.transaction ≡ option_and_then (transaction_at (log book.now.events ledger.now ++ earlier.now)) (id_of_write write.now) }
    ensures reverted { result.reverted_by ≡ option_and_then (reverted_by (log book.now.events ledger.now ++ earlier.now)) (id_of_write write.now) }
    ensures used { result.used ≡ used }
{
    let Some(logged) = book.transactions(ledger) else {
        unreachable!()
    };
    let transactions = count_with(logged, earlier);
    match named_id(write) {
        Some(id) => Looked {
            transactions,
            transaction: find_transaction(ledger, id, book, earlier),
            reverted_by: find_reverted(ledger, id, book, earlier),
            used,
        },
        None => Looked {
            transactions,
            transaction: None,
            reverted_by: None,
            used,
        },
    }
}

/// The transaction of the id, in the book or among the earlier entries.
fn find_transaction<'a>(
    ledger: &LedgerName,
    id: u64,
    book: &'a Book,
    earlier: &'a [Entry],
) -> Option<&'a Transaction>
    ensures { option_copied result ≡ transaction_at (log book.now.events ledger.now ++ earlier.now) id }
{
    match book.transaction(ledger, id) {
        Some(found) => Some(found),
        None => find_made(earlier, id),
    }
}

/// The id of the transaction that reverts the transaction of the id.
fn find_reverted(ledger: &LedgerName, id: u64, book: &Book, earlier: &[Entry]) -> Option<u64>
    ensures { result ≡ reverted_by (log book.now.events ledger.now ++ earlier.now) id }
{
    match book.reverted_by(ledger, id) {
        Some(by) => Some(by),
        None => find_reverting(earlier, id),
    }
}

/// The id of the transaction that a write names.
fn named_id(write: &Write) -> Option<u64>
    ensures { result ≡ id_of_write write.now }
{
    match write {
        Write::Create { .. } => None,
        Write::Revert { id, .. } => Some(*id),
        Write::SetMeta { target, .. } => target_id(target),
        Write::DropMeta { target, .. } => target_id(target),
    }
}

fn target_id(target: &Target) -> Option<u64>
    ensures { result ≡ id_of_target target.now }
{
    match target {
        Target::Account(_) => None,
        Target::Transaction(id) => Some(*id),
    }
}
