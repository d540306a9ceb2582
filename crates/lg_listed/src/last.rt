//! The end of a ledger's log with earlier entries: how many there are, the last hash and the next date.

ghost use Rattle.std.specs.Prelude.{◌≡◌, ◌+◌, ◌<◌, ◌^◌, ◌++◌, true, if◌then◌else◌, int_lt, length, IfOk};
ghost use Rattle.lg_types.specs.Chain.{head as head_of};
ghost use Rattle.lg_types.specs.Known.{date as date_of_log};
ghost use Rattle.lg_types.specs.Log.{log, is_there};
ghost use Rattle.lg_types.specs.Moments.{brought};
ghost use Rattle.lg_listed.specs.Trying.{IsNumber};

use lg_book::Book;
use lg_types::{Entry, LedgerName, NoMemory, bring};

/// How many entries the ledger's log has with the earlier ones. The next entry's id is a number of 64 bits; memory is
/// wanting where it wouldn't be.
pub fn count_entries(ledger: &LedgerName, book: &Book, earlier: &[Entry]) -> Result<u64, NoMemory>
    requires { is_there book.now.events ledger.now ≡ true }
    ensures { IfOk result (IsNumber (log book.now.events ledger.now ++ earlier.now)) }
{
    let Some(logged) = book.log_len(ledger) else {
        unreachable!()
    };
    sum_within(logged, earlier.len() as u64)
}

/// Both numbers together, where one more is a number of 64 bits.
fn sum_within(one: u64, other: u64) -> Result<u64, NoMemory>
    ensures { IfOk result (λ sum. (sum ≡ one + other) × (sum + 1 < 2 ^ 64)) }
{
    match one.checked_add(other) {
        Some(sum) => {
            if sum < u64::MAX {
                Ok(sum)
            } else {
                Err(NoMemory)
            }
        }
        None => Err(NoMemory),
    }
}

/// The hash of the last entry of the ledger's log with the earlier ones.
pub fn head(ledger: &LedgerName, book: &Book, earlier: &[Entry]) -> Option<[u8; 32]>
    ensures { result ≡ head_of (log book.now.events ledger.now ++ earlier.now) }
{
    match earlier.last() {
        Some(entry) => Some(entry.hash),
        None => book.head(ledger),
    }
}

/// The date of an entry that follows the ledger's log and the earlier ones: the moment brought into the range of moments,
/// and never before the last entry's date. Both are microseconds since 1970-01-01T00:00:00Z.
pub fn date_for(ledger: &LedgerName, now: &i64, book: &Book, earlier: &[Entry]) -> i64
    ensures { result ≡ date_of_log (log book.now.events ledger.now ++ earlier.now) now.now }
{
    match earlier.last() {
        Some(entry) => {
            let moment = bring(now);
            later(&entry.date, &moment)
        }
        None => book.date_for(ledger, *now),
    }
}

/// The moment, or the last date where that is later.
fn later(last: &i64, moment: &i64) -> i64
    ensures { result ≡ (if int_lt moment.now last.now then last.now else moment.now) }
{
    if *moment < *last { *last } else { *moment }
}
