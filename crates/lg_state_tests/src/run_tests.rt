//! Edits of a run of records.

ghost use Rattle.std.specs.Prelude.{◌≡◌, ◌<◌};

use lg_runs::{Runs, Steps};
use std::alloc::Global;
use std::marker::Brand;
use std::process::Abort;
use std::sync::ledger::{Blank, Ledger};
use std::test::Fail;

fn edits<L: Ledger>(rt: &impl Abort, alloc: Global, blank: Blank) -> Result<(), Fail>
    requires name { blank.name ≡ L.name }
    requires parts { blank.parts ≡ L.parts }
    requires some { 0 < L.parts }
{
    let mut steps = Steps::<L>::new(blank);
    let mut runs = Runs::<u64>::new(alloc);
    assert!(rt; runs.is_empty());
    runs.reserve(3)?;
    assert_eq!(rt; runs.spare(), 3);
    runs.push(5, &mut steps);
    runs.push(7, &mut steps);
    runs.insert_at(1, 6, &mut steps);
    runs.write_at(0, 4, &mut steps);
    assert_eq!(rt; runs.len(), 3);
    assert_eq!(rt; runs.read_at(0, &mut steps), 4);
    assert_eq!(rt; runs.read_at(1, &mut steps), 6);
    assert_eq!(rt; runs.read_at(2, &mut steps), 7);
    runs.cut(1);
    assert_eq!(rt; runs.len(), 1);
    assert_eq!(rt; runs.spare(), 2);
    Ok(())
}

#[test]
fn edits_of_a_run(rt: HostRuntime) -> Result<(), Fail> {
    edits::<Brand>(&rt, rt.alloc(), Blank::new(1))
}
