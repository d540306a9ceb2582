//! What the book says of a write.

ghost use Rattle.std.specs.Prelude.{◌≡◌, true, length};
ghost use Rattle.std.specs.Option.{option_copied, option_and_then};
ghost use Rattle.lg_types.specs.Known.{transactions as transactions_of};
ghost use Rattle.lg_types.specs.Log.{log, is_there};
ghost use Rattle.lg_decide.specs.Looking.{named_id as id_of_write, target_id as id_of_target, transaction_at, reverted_by};

use crate::looked::Looked;
use lg_book::Book;
use lg_types::{LedgerName, Target, Write};

/// What is looked up in the book for a write to a ledger that is there. `used` is the transaction of its reference.
pub fn look_up<'a>(
    ledger: &LedgerName,
    write: &Write,
    used: Option<u64>,
    book: &'a Book,
) -> Looked<'a>
    requires { is_there book.now.events ledger.now ≡ true }
    ensures count { result.transactions ≡ length (transactions_of (log book.now.events ledger.now)) }
    ensures known { option_copied result.transaction ≡ option_and_then (transaction_at (log book.now.events ledger.now)) (id_of_write write.now) }
    ensures reverted { result.reverted_by ≡ option_and_then (reverted_by (log book.now.events ledger.now)) (id_of_write write.now) }
    ensures used { result.used ≡ used }
{
    let Some(transactions) = book.transactions(ledger) else {
        unreachable!()
    };
    match named_id(write) {
        Some(id) => Looked {
            transactions,
            transaction: book.transaction(ledger, id),
            reverted_by: book.reverted_by(ledger, id),
            used,
        },
        None => Looked {
            transactions,
            transaction: None,
            reverted_by: None,
            used,
        },
    }
}

/// The id of the transaction that a write names.
fn named_id(write: &Write) -> Option<u64>
    ensures { result ≡ id_of_write write.now }
{
    match write {
        Write::Create { .. } => None,
        Write::Revert { id, .. } => Some(*id),
        Write::SetMeta { target, .. } => target_id(target),
        Write::DropMeta { target, .. } => target_id(target),
    }
}

fn target_id(target: &Target) -> Option<u64>
    ensures { result ≡ id_of_target target.now }
{
    match target {
        Target::Account(_) => None,
        Target::Transaction(id) => Some(*id),
    }
}
