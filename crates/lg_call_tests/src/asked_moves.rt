//! What is asked of the moves of one account and one asset.

ghost use Rattle.std.specs.Prelude.{◌≡◌, ◌<◌};

use crate::words::{end_of, moment_of, number_of};
use lg_base::Volumes;
use lg_moves::MoveIndex;
use lg_request_tests::text_of;
use lg_runs::Steps;
use std::alloc::Global;
use std::marker::Brand;
use std::sync::ledger::{Blank, Ledger};
use std::test::Fail;

fn told_balance(alloc: Global, volumes: Volumes) -> Result<String, Fail> {
    if volumes.input < volumes.output {
        let below = volumes.output - volumes.input;
        Ok(format!(in alloc; "-{below}")?)
    } else {
        let balance = volumes.input - volumes.output;
        Ok(format!(in alloc; "{balance}")?)
    }
}

/// The input, the output and the balance, as `(10,18,-8)`.
fn told_volumes(alloc: Global, volumes: Volumes) -> Result<String, Fail> {
    let balance = told_balance(alloc, volumes)?;
    Ok(format!(in alloc; "({},{},{balance})", volumes.input, volumes.output)?)
}

/// The volumes of the moves in a span, with both ends, of effective dates or of dates of insertion.
fn volumes_between<L: Ledger>(
    index: &MoveIndex,
    from: &str,
    to: &str,
    dates: &str,
    steps: &mut Steps<L>,
) -> Result<Volumes, Fail> {
    let from = end_of(from)?;
    let to = end_of(to)?;
    Ok(index.between(from, to, dates == "inserted", steps))
}

/// Whether there is a move in a span, with both ends.
fn any_between<L: Ledger>(
    index: &MoveIndex,
    from: &str,
    to: &str,
    dates: &str,
    steps: &mut Steps<L>,
) -> Result<bool, Fail> {
    let from = end_of(from)?;
    let to = end_of(to)?;
    Ok(index.any(from, to, dates == "inserted", steps))
}

fn told_any<L: Ledger>(
    alloc: Global,
    index: &MoveIndex,
    from: &str,
    to: &str,
    dates: &str,
    steps: &mut Steps<L>,
) -> Result<String, Fail> {
    let any = any_between(index, from, to, dates, steps)?;
    Ok(format!(in alloc; "{any}")?)
}

/// The volumes of the moves up to a date or a transaction.
fn volumes_to<L: Ledger>(
    index: &MoveIndex,
    order: &str,
    end: &str,
    steps: &mut Steps<L>,
) -> Result<Volumes, Fail> {
    match order.as_bytes() {
        b"inserted-to" => Ok(index.at_insertion(moment_of(end)?, steps)),
        b"effective-to" => Ok(index.at_effective(moment_of(end)?, steps)),
        b"transaction-to" => Ok(index.at_transaction(number_of(end)?, steps)),
        _ => Err("no order of moves".into()),
    }
}

/// The volumes of the moves whose pair of effective date and transaction is at most the pair, or before it.
fn volumes_by_rank<L: Ledger>(
    index: &MoveIndex,
    order: &str,
    date: &str,
    id: &str,
    steps: &mut Steps<L>,
) -> Result<Volumes, Fail> {
    let date = moment_of(date)?;
    let id = number_of(id)?;
    match order.as_bytes() {
        b"rank-to" => Ok(index.at_rank(date, id, steps)),
        b"rank-before" => Ok(index.before_rank(date, id, steps)),
        _ => Err("no order of moves".into()),
    }
}

fn told_by<L: Ledger>(
    alloc: Global,
    index: &MoveIndex,
    words: &[&str],
    blank: Blank,
) -> Result<String, Fail>
    requires name { blank.name ≡ L.name }
    requires parts { blank.parts ≡ L.parts }
    requires some { 0 < L.parts }
{
    let mut steps = Steps::<L>::new(blank);
    match *words {
        ["count"] => Ok(format!(in alloc; "{}", index.len())?),
        ["total"] => told_volumes(alloc, index.total()),
        [order, end] => told_volumes(alloc, volumes_to(index, order, end, &mut steps)?),
        [order, date, id] => {
            told_volumes(alloc, volumes_by_rank(index, order, date, id, &mut steps)?)
        }
        ["any", from, to, dates] => told_any(alloc, index, from, to, dates, &mut steps),
        ["between", from, to, dates] => {
            told_volumes(alloc, volumes_between(index, from, to, dates, &mut steps)?)
        }
        _ => Err("no question of moves".into()),
    }
}

fn told_index(alloc: Global, index: &MoveIndex, words: &[&str]) -> Result<String, Fail> {
    told_by::<Brand>(alloc, index, words, Blank::new(1))
}

/// What is answered of moves, and `none` where there is no index.
pub fn told_moves(
    alloc: Global,
    index: Option<&MoveIndex>,
    words: &[&str],
) -> Result<String, Fail> {
    match index {
        Some(index) => told_index(alloc, index, words),
        None => text_of(alloc, b"none"),
    }
}
