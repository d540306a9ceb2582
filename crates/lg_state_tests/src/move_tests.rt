//! Readings of eight worked moves.

ghost use Rattle.std.specs.Prelude.{◌≡◌, ◌<◌};

use crate::checked_index::{CheckedIndex, amount, volumes};
use lg_moves::MoveIndex;
use lg_runs::Steps;
use lg_types::Move;
use std::alloc::Global;
use std::marker::Brand;
use std::process::Abort;
use std::sync::ledger::{Blank, Ledger};
use std::test::Fail;

/// Eight moves: one dated back before all others, two of one posting, two into a tie, one of no amount, and one after
/// all.
fn worked<L: Ledger>(alloc: Global, steps: &mut Steps<L>) -> Result<CheckedIndex, Fail> {
    let mut checked = CheckedIndex::new(alloc);
    for (transaction, inserted, effective, incoming, units) in [
        (1, 100, 100, true, 10),
        (2, 200, 200, false, 3),
        (2, 200, 200, true, 5),
        (3, 300, 50, true, 7),
        (4, 300, 200, false, 2),
        (5, 400, 200, true, 1),
        (6, 500, 150, true, 0),
        (7, 600, 600, true, 4),
    ] {
        let item = Move {
            transaction,
            inserted,
            effective,
            incoming,
            amount: amount(units)?,
        };
        if !checked.put(item, steps)? {
            return Err(Fail::from("not applied"));
        }
    }
    Ok(checked)
}

fn read_by_insertion<L: Ledger>(rt: &impl Abort, index: &MoveIndex, steps: &mut Steps<L>) {
    for (date, input, output) in [
        (99, 0, 0),
        (100, 10, 0),
        (199, 10, 0),
        (200, 15, 3),
        (300, 22, 5),
        (400, 23, 5),
        (600, 27, 5),
    ] {
        assert_eq!(rt;
            index.at_insertion(date, steps),
            volumes(input, output),
            "at {date}"
        );
    }
    for (id, input, output) in [
        (0, 0, 0),
        (1, 10, 0),
        (2, 15, 3),
        (3, 22, 3),
        (4, 22, 5),
        (6, 23, 5),
        (7, 27, 5),
    ] {
        assert_eq!(rt;
            index.at_transaction(id, steps),
            volumes(input, output),
            "at {id}"
        );
    }
}

fn read_by_effect<L: Ledger>(rt: &impl Abort, index: &MoveIndex, steps: &mut Steps<L>) {
    for (date, input, output) in [
        (49, 0, 0),
        (50, 7, 0),
        (99, 7, 0),
        (100, 17, 0),
        (150, 17, 0),
        (199, 17, 0),
        (200, 23, 5),
        (599, 23, 5),
        (600, 27, 5),
    ] {
        assert_eq!(rt;
            index.at_effective(date, steps),
            volumes(input, output),
            "at {date}"
        );
    }
}

fn read_by_rank<L: Ledger>(rt: &impl Abort, index: &MoveIndex, steps: &mut Steps<L>) {
    for (date, id, input, output) in [
        (200, 1, 17, 0),
        (200, 2, 22, 3),
        (200, 4, 22, 5),
        (200, 5, 23, 5),
        (600, 7, 27, 5),
    ] {
        assert_eq!(rt;
            index.at_rank(date, id, steps),
            volumes(input, output),
            "at {date}, {id}"
        );
    }
    for (date, id, input, output) in [
        (50, 3, 0, 0),
        (50, 4, 7, 0),
        (200, 2, 17, 0),
        (200, 3, 22, 3),
        (200, 4, 22, 3),
        (200, 5, 22, 5),
        (200, 6, 23, 5),
    ] {
        assert_eq!(rt;
            index.before_rank(date, id, steps),
            volumes(input, output),
            "before {date}, {id}"
        );
    }
}

fn read_between<L: Ledger>(rt: &impl Abort, index: &MoveIndex, steps: &mut Steps<L>) {
    for (from, to, by_insertion, input, output, any) in [
        (Some(50), Some(100), false, 17, 0, true),
        (Some(51), Some(100), false, 10, 0, true),
        (Some(100), Some(50), false, 0, 0, false),
        (Some(150), Some(150), false, 0, 0, true),
        (Some(151), Some(199), false, 0, 0, false),
        (None, Some(99), false, 7, 0, true),
        (Some(200), None, false, 10, 5, true),
        (None, None, false, 27, 5, true),
        (Some(200), Some(300), true, 12, 5, true),
        (Some(201), Some(299), true, 0, 0, false),
        (Some(300), Some(200), true, 0, 0, false),
    ] {
        assert_eq!(rt;
            index.between(from, to, by_insertion, steps),
            volumes(input, output)
        );
        assert_eq!(rt; index.any(from, to, by_insertion, steps), any);
    }
}

fn reads_worked<L: Ledger>(rt: &impl Abort, alloc: Global, blank: Blank) -> Result<(), Fail>
    requires name { blank.name ≡ L.name }
    requires parts { blank.parts ≡ L.parts }
    requires some { 0 < L.parts }
{
    let mut steps = Steps::<L>::new(blank);
    let checked = worked(alloc, &mut steps)?;
    assert_eq!(rt; checked.index.total(), volumes(27, 5));
    assert_eq!(rt; checked.index.len(), 8);
    read_by_insertion(rt, &checked.index, &mut steps);
    read_by_effect(rt, &checked.index, &mut steps);
    read_by_rank(rt, &checked.index, &mut steps);
    read_between(rt, &checked.index, &mut steps);
    Ok(())
}

#[test]
fn readings_of_worked_moves(rt: HostRuntime) -> Result<(), Fail> {
    reads_worked::<Brand>(&rt, rt.alloc(), Blank::new(1))
}
