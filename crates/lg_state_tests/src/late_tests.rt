//! Moves that are dated back, and moves at dates without order; room that is prepared at once.

ghost use Rattle.std.specs.Prelude.{◌≡◌, ◌<◌};

use crate::checked_index::{CheckedIndex, amount, volumes};
use lg_base::Volumes;
use lg_moves::MoveIndex;
use lg_runs::Steps;
use lg_types::Move;
use std::alloc::Global;
use std::marker::Brand;
use std::process::Abort;
use std::sync::ledger::{Blank, Ledger};
use std::test::Fail;

/// Ten thousand moves, each before all earlier ones, read at every tenth date.
fn reads_back<L: Ledger>(rt: &impl Abort, alloc: Global, blank: Blank) -> Result<(), Fail>
    requires name { blank.name ≡ L.name }
    requires parts { blank.parts ≡ L.parts }
    requires some { 0 < L.parts }
{
    let mut steps = Steps::<L>::new(blank);
    let mut checked = CheckedIndex::new(alloc);
    for i in 0u32..10_000 {
        let item = Move {
            transaction: u64::from(i),
            inserted: i64::from(i),
            effective: i64::from(10_000 - i),
            incoming: true,
            amount: amount(1)?,
        };
        assert!(rt; checked.put(item, &mut steps)?);
    }
    for i in 0u32..1_001 {
        let date = i * 10;
        assert_eq!(rt;
            checked.index.at_effective(i64::from(date), &mut steps),
            volumes(u128::from(date), 0)
        );
    }
    Ok(())
}

#[test]
fn ten_thousand_moves_each_before_all_earlier_ones(rt: HostRuntime) -> Result<(), Fail> {
    reads_back::<Brand>(&rt, rt.alloc(), Blank::new(1))
}

/// A date of the moves of the test below, from 0 to 200.
fn date_of_move(i: u32) -> i64 {
    i64::from(i.wrapping_mul(2_654_435_761) / 65_536 % 201)
}

/// The sums of the amounts of the first `count` moves that are effective at most at the date, one by one.
fn plain(count: u32, date: i64) -> Volumes {
    let mut sums = volumes(0, 0);
    for i in 0..count {
        if date_of_move(i) <= date {
            let units = u128::from(i % 7);
            if i % 3 == 0 {
                sums.output = sums.output.wrapping_add(units);
            } else {
                sums.input = sums.input.wrapping_add(units);
            }
        }
    }
    sums
}

/// Six hundred moves at dates without order, read at every date.
fn reads_mixed<L: Ledger>(rt: &impl Abort, alloc: Global, blank: Blank) -> Result<(), Fail>
    requires name { blank.name ≡ L.name }
    requires parts { blank.parts ≡ L.parts }
    requires some { 0 < L.parts }
{
    let mut steps = Steps::<L>::new(blank);
    let mut checked = CheckedIndex::new(alloc);
    for i in 0u32..600 {
        let item = Move {
            transaction: u64::from(i),
            inserted: i64::from(i),
            effective: date_of_move(i),
            incoming: i % 3 != 0,
            amount: amount(u128::from(i % 7))?,
        };
        assert!(rt; checked.put(item, &mut steps)?);
    }
    for date in -1i64..202 {
        assert_eq!(rt;
            checked.index.at_effective(date, &mut steps),
            plain(600, date),
            "at {date}"
        );
    }
    Ok(())
}

#[test]
fn readings_at_dates_without_order(rt: HostRuntime) -> Result<(), Fail> {
    reads_mixed::<Brand>(&rt, rt.alloc(), Blank::new(1))
}

#[test]
fn room_is_prepared_at_once(rt: HostRuntime) -> Result<(), Fail> {
    let mut index = MoveIndex::new(rt.alloc());
    index.prepare(1_000)?;
    assert!(rt; index.spare() >= 1_000);
    index.prepare(1)?;
    assert!(rt; index.spare() >= 1_000);
    Ok(())
}
