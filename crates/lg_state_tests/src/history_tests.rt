//! Histories over a few changes.

ghost use Rattle.std.specs.Prelude.{◌≡◌, ◌≤ℤ◌, [], Some, IfOk, OnOk};
ghost use Rattle.lg_meta.specs.MetaFold.{last_date};

use lg_containers::{Meta, Name, NoMemory, Text};
use lg_meta::{MetaChange, MetaHistory};
use std::alloc::Global;
use std::test::Fail;

// 2023-12-31 to 2024-01-03, midnight.
const EVE: i64 = 1_703_980_800_000_000;

const FIRST: i64 = 1_704_067_200_000_000;

const SECOND: i64 = 1_704_153_600_000_000;

const THIRD: i64 = 1_704_240_000_000_000;

fn text(alloc: Global, text: &str) -> Result<Text, Fail> {
    Ok(Name::read(alloc, text.as_bytes())?)
}

// A set of the pairs.
fn set(alloc: Global, pairs: &[(&str, &str)]) -> Result<MetaChange, Fail> {
    let mut meta = Meta::new(alloc);
    for (name, value) in pairs {
        meta.put(text(alloc, name)?, text(alloc, value)?)?;
    }
    Ok(MetaChange::Set(meta))
}

fn drop_of(alloc: Global, name: &str) -> Result<MetaChange, Fail> {
    Ok(MetaChange::Drop(text(alloc, name)?))
}

// The history of one change.
fn begun(alloc: Global, date: i64, change: MetaChange) -> Result<MetaHistory, NoMemory>
    ensures none { IfOk result (λ history. history.prepared ≡ []) }
    ensures last { IfOk result (λ history. last_date history.changes ≡ Some date) }
{
    let mut history = MetaHistory::new(alloc);
    history.prepare(&change)?;
    history.apply(date, change);
    Ok(history)
}

// Applies the change behind those up to `last`.
fn add(history: &mut MetaHistory, last: i64, date: i64, change: MetaChange) -> Result<(), NoMemory>
    requires none { history.old.prepared ≡ [] }
    requires last { last_date history.old.changes ≡ Some last }
    requires later { last ≤ℤ date }
    ensures none { OnOk result (history.new.prepared ≡ []) }
    ensures last { OnOk result (last_date history.new.changes ≡ Some date) }
{
    history.prepare(&change)?;
    history.apply(date, change);
    Ok(())
}

// The bytes of a value, none where there is no value.
fn shown(value: Option<&Text>) -> &[u8] {
    match value {
        None => b"",
        Some(text) => text.bytes(),
    }
}

fn tiers(alloc: Global) -> Result<MetaHistory, Fail> {
    let mut history = begun(alloc, FIRST, set(alloc, &[("tier", "gold")])?)?;
    let silver = set(alloc, &[("tier", "silver"), ("x", "1")])?;
    add(&mut history, FIRST, SECOND, silver)?;
    add(&mut history, SECOND, THIRD, drop_of(alloc, "tier")?)?;
    Ok(history)
}

#[test]
fn shows_metadata_by_date(rt: HostRuntime) -> Result<(), Fail> {
    let history = tiers(rt.alloc())?;
    assert_eq!(rt; history.first(), Some(FIRST));
    for (date, tier, x, count) in [
        (Some(EVE), "", "", 0),
        (Some(FIRST), "gold", "", 1),
        (Some(SECOND - 1), "gold", "", 1),
        (Some(SECOND), "silver", "1", 2),
        (Some(THIRD), "", "1", 1),
        (None, "", "1", 1),
    ] {
        assert_eq!(rt; shown(history.value(b"tier", date)), tier.as_bytes());
        assert_eq!(rt; shown(history.value(b"x", date)), x.as_bytes());
        let meta = history.copy_at(date)?;
        assert_eq!(rt; meta.len(), count);
        assert_eq!(rt; shown(meta.find(b"tier")), tier.as_bytes());
        assert_eq!(rt; shown(meta.find(b"x")), x.as_bytes());
    }
    Ok(())
}

fn odd_changes(alloc: Global) -> Result<MetaHistory, Fail> {
    let mut history = begun(alloc, EVE, set(alloc, &[])?)?;
    add(&mut history, EVE, FIRST, drop_of(alloc, "x")?)?;
    add(&mut history, FIRST, SECOND, set(alloc, &[("x", "1")])?)?;
    add(&mut history, SECOND, SECOND, set(alloc, &[("x", "2")])?)?;
    Ok(history)
}

#[test]
fn takes_empty_sets_absent_drops_and_equal_dates(rt: HostRuntime) -> Result<(), Fail> {
    let history = odd_changes(rt.alloc())?;
    assert_eq!(rt; history.first(), Some(EVE));
    assert_eq!(rt; history.copy_at(Some(FIRST))?.len(), 0);
    assert_eq!(rt; shown(history.value(b"x", Some(FIRST))), b"".as_slice());
    assert_eq!(rt; shown(history.value(b"x", Some(SECOND))), b"2".as_slice());
    Ok(())
}

#[test]
fn forgets_what_is_prepared(rt: HostRuntime) -> Result<(), Fail> {
    let alloc = rt.alloc();
    let mut history = MetaHistory::new(alloc);
    assert_eq!(rt; history.first(), None);
    history.prepare(&set(alloc, &[("x", "1")])?)?;
    history.apply_first(FIRST);
    history.prepare(&set(alloc, &[("x", "2"), ("y", "2")])?)?;
    history.prepare(&drop_of(alloc, "x")?)?;
    history.forget();
    assert_eq!(rt; shown(history.value(b"x", None)), b"1".as_slice());
    assert_eq!(rt; shown(history.value(b"y", None)), b"".as_slice());
    Ok(())
}

#[test]
fn forgets_what_is_prepared_last(rt: HostRuntime) -> Result<(), Fail> {
    let alloc = rt.alloc();
    let mut history = MetaHistory::new(alloc);
    history.prepare(&set(alloc, &[("x", "1")])?)?;
    history.prepare(&set(alloc, &[("x", "2"), ("y", "2")])?)?;
    history.forget_last();
    history.apply_first(FIRST);
    assert_eq!(rt; shown(history.value(b"x", None)), b"1".as_slice());
    assert_eq!(rt; shown(history.value(b"y", None)), b"".as_slice());
    Ok(())
}
