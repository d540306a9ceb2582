//! Trials of postings over the volumes of one account and asset.

ghost use Rattle.std.specs.Prelude.{◌≡◌, IfOk};
ghost use Rattle.lg_base.specs.Volumes.{IsWithinLimit};

use crate::lines::postings_of;
use lg_sheet::{Balances, Sheet, SheetStop};
use lg_types::{Address, Amount, Asset, Postings, Volumes};
use std::alloc::Global;
use std::process::Abort;
use std::test::Fail;

/// The volumes of one account and asset; of all others there are none.
#[derive(Drop)]
struct Lent {
    account: Address,
    asset: Asset,
    volumes: Volumes,
}

impl Balances for Lent {
    ghost use Rattle.std.specs.Prelude.{ℕ, Bool, true, List, ◌&&◌, if◌then◌else◌};
    ghost use Rattle.std.specs.Str.{bytes_eq};
    ghost use Rattle.lg_sheet.specs.Working.{no_volumes};

    ghost lends = { λ l account. true };

    ghost totals = { λ l account asset. if bytes_eq l.account account && bytes_eq l.asset asset then l.volumes else no_volumes };

    fn volumes(&self, account: &Address, asset: &Asset) -> Volumes {
        if self.account.bytes() == account.bytes() && self.asset.bytes() == asset.bytes() {
            self.volumes
        } else {
            Volumes::zero()
        }
    }
}

/// The greatest input or output of an account.
const MOST: u128 = 170141183460469231731687303715884105727;

/// Volumes of an account and an asset.
#[derive(Clone, Copy)]
struct Held {
    account: &'static str,
    asset: &'static str,
    input: u128,
    output: u128,
}

/// Volumes within the limit.
fn volumes_of(input: u128, output: u128) -> Result<Volumes, Fail>
    ensures { IfOk result IsWithinLimit }
{
    match (Amount::of(input), Amount::of(output)) {
        (Some(input), Some(output)) => Ok(Volumes {
            input: input.value(),
            output: output.value(),
        }),
        _ => Err("past the limit".into()),
    }
}

fn lend(alloc: Global, held: Held) -> Result<Lent, Fail>
    ensures { IfOk result (λ l. IsWithinLimit l.volumes) }
{
    let account = Address::read(alloc, held.account.as_bytes())?;
    let asset = Asset::read(alloc, held.asset.as_bytes())?;
    let volumes = volumes_of(held.input, held.output)?;
    Ok(Lent {
        account,
        asset,
        volumes,
    })
}

fn told(alloc: Global, tried: &Result<(), SheetStop>) -> Result<String, Fail> {
    match tried {
        Ok(()) => Ok(format!(in alloc; "accepted")?),
        Err(SheetStop::Lack { posting, balance }) => {
            Ok(format!(in alloc; "posting {posting} lacks, has {balance}")?)
        }
        Err(SheetStop::Below { balance, .. }) => Ok(format!(in alloc; "below: {balance}")?),
        Err(SheetStop::Limit { posting }) => Ok(format!(in alloc; "posting {posting} is over")?),
        Err(SheetStop::NoMemory) => Ok(format!(in alloc; "no memory")?),
    }
}

/// The trial of postings on a new sheet.
fn attempt(alloc: Global, lent: &Lent, postings: &Postings, force: bool) -> Result<String, Fail>
    requires { IsWithinLimit lent.now.volumes }
{
    let mut sheet = Sheet::new(alloc);
    told(alloc, &sheet.try_postings(lent, postings, force))
}

fn attempt_revert(
    alloc: Global,
    lent: &Lent,
    postings: &Postings,
    force: bool,
) -> Result<String, Fail>
    requires { IsWithinLimit lent.now.volumes }
{
    let mut sheet = Sheet::new(alloc);
    told(alloc, &sheet.try_revert(lent, postings, force))
}

/// The trial of postings after others that the sheet accepted.
fn attempt_after(
    alloc: Global,
    lent: &Lent,
    first: &Postings,
    postings: &Postings,
) -> Result<String, Fail>
    requires { IsWithinLimit lent.now.volumes }
{
    let mut sheet = Sheet::new(alloc);
    match sheet.try_postings(lent, first, false) {
        Ok(()) => told(alloc, &sheet.try_postings(lent, postings, false)),
        Err(stop) => told(alloc, &Err(stop)),
    }
}

/// What is tried: postings or a revert of them, each with or without force, or postings after others.
#[derive(Clone, Copy)]
enum Trial {
    Plain,
    Forced,
    Revert,
    ForcedRevert,
    After(&'static str),
}

/// A trial of a list of postings in JSON, and what it comes to.
#[derive(Drop)]
struct Row {
    held: Held,
    trial: Trial,
    postings: &'static str,
    told: &'static str,
}

fn tried(alloc: Global, row: &Row) -> Result<String, Fail> {
    let lent = lend(alloc, row.held)?;
    let postings = postings_of(alloc, row.postings)?;
    match row.trial {
        Trial::Plain => attempt(alloc, &lent, &postings, false),
        Trial::Forced => attempt(alloc, &lent, &postings, true),
        Trial::Revert => attempt_revert(alloc, &lent, &postings, false),
        Trial::ForcedRevert => attempt_revert(alloc, &lent, &postings, true),
        Trial::After(first) => {
            attempt_after(alloc, &lent, &postings_of(alloc, first)?, &postings)
        }
    }
}

fn check(rt: &impl Abort, alloc: Global, rows: &[Row]) -> Result<(), Fail> {
    for (place, row) in rows.iter().enumerate() {
        let told = tried(alloc, row)?;
        assert_eq!(rt; told.as_str(), row.told, "trial {place}");
    }
    Ok(())
}

const fn holds(account: &'static str, asset: &'static str, input: u128, output: u128) -> Held {
    Held {
        account,
        asset,
        input,
        output,
    }
}

#[test]
fn a_source_needs_its_funds(rt: HostRuntime) -> Result<(), Fail> {
    check(
        &rt,
        rt.alloc(),
        &[
            Row {
                held: holds("users:1", "USD/2", 100, 0),
                trial: Trial::Plain,
                postings: r#"[{"source":"users:1","destination":"users:2","amount":101,"asset":"USD/2"}]"#,
                told: "posting 0 lacks, has 100",
            },
            Row {
                held: holds("users:1", "USD/2", 100, 0),
                trial: Trial::Forced,
                postings: r#"[{"source":"users:1","destination":"users:2","amount":101,"asset":"USD/2"}]"#,
                told: "accepted",
            },
            Row {
                held: holds("users:1", "USD/2", 100, 0),
                trial: Trial::Plain,
                postings: r#"[{"source":"users:1","destination":"users:2","amount":100,"asset":"USD/2"}]"#,
                told: "accepted",
            },
            Row {
                held: holds("users:1", "USD/2", 100, 0),
                trial: Trial::Plain,
                postings: r#"[{"source":"users:1","destination":"users:2","amount":1,"asset":"EUR"}]"#,
                told: "posting 0 lacks, has 0",
            },
        ],
    )
}

#[test]
fn later_postings_see_earlier_ones(rt: HostRuntime) -> Result<(), Fail> {
    check(
        &rt,
        rt.alloc(),
        &[
            Row {
                held: holds("c", "EUR", 0, 0),
                trial: Trial::Plain,
                postings: r#"[{"source":"world","destination":"a","amount":50,"asset":"EUR"},{"source":"a","destination":"b","amount":50,"asset":"EUR"}]"#,
                told: "accepted",
            },
            Row {
                held: holds("c", "EUR", 0, 0),
                trial: Trial::Plain,
                postings: r#"[{"source":"a","destination":"b","amount":50,"asset":"EUR"},{"source":"world","destination":"a","amount":50,"asset":"EUR"}]"#,
                told: "posting 0 lacks, has 0",
            },
            Row {
                held: holds("c", "EUR", 0, 0),
                trial: Trial::Plain,
                postings: r#"[{"source":"a","destination":"b","amount":0,"asset":"EUR"}]"#,
                told: "accepted",
            },
        ],
    )
}

#[test]
fn volumes_stay_within_the_limit(rt: HostRuntime) -> Result<(), Fail> {
    check(
        &rt,
        rt.alloc(),
        &[
            Row {
                held: holds("c", "X", 0, 0),
                trial: Trial::Plain,
                postings: r#"[{"source":"world","destination":"a","amount":170141183460469231731687303715884105727,"asset":"X"}]"#,
                told: "accepted",
            },
            Row {
                held: holds("world", "X", 0, MOST),
                trial: Trial::Plain,
                postings: r#"[{"source":"world","destination":"a","amount":1,"asset":"X"}]"#,
                told: "posting 0 is over",
            },
            Row {
                held: holds("world", "X", 0, MOST),
                trial: Trial::Forced,
                postings: r#"[{"source":"world","destination":"a","amount":1,"asset":"X"}]"#,
                told: "posting 0 is over",
            },
            Row {
                held: holds("c", "X", 0, 0),
                trial: Trial::After(
                    r#"[{"source":"world","destination":"a","amount":170141183460469231731687303715884105727,"asset":"X"}]"#,
                ),
                postings: r#"[{"source":"world","destination":"a","amount":1,"asset":"X"}]"#,
                told: "posting 0 is over",
            },
        ],
    )
}

#[test]
fn a_revert_may_leave_nobody_below_zero(rt: HostRuntime) -> Result<(), Fail> {
    check(
        &rt,
        rt.alloc(),
        &[
            Row {
                held: holds("a", "EUR", 10, 8),
                trial: Trial::Revert,
                postings: r#"[{"source":"world","destination":"a","amount":10,"asset":"EUR"}]"#,
                told: "below: -8",
            },
            Row {
                held: holds("a", "EUR", 10, 8),
                trial: Trial::ForcedRevert,
                postings: r#"[{"source":"world","destination":"a","amount":10,"asset":"EUR"}]"#,
                told: "accepted",
            },
            Row {
                held: holds("a", "EUR", 10, 8),
                trial: Trial::Revert,
                postings: r#"[{"source":"a","destination":"b","amount":8,"asset":"EUR"}]"#,
                told: "below: -8",
            },
        ],
    )
}

#[test]
fn the_sheet_keeps_what_it_accepted(rt: HostRuntime) -> Result<(), Fail> {
    check(
        &rt,
        rt.alloc(),
        &[
            Row {
                held: holds("c", "EUR", 0, 0),
                trial: Trial::After(
                    r#"[{"source":"world","destination":"a","amount":10,"asset":"EUR"}]"#,
                ),
                postings: r#"[{"source":"a","destination":"b","amount":10,"asset":"EUR"}]"#,
                told: "accepted",
            },
            Row {
                held: holds("c", "EUR", 0, 0),
                trial: Trial::After(
                    r#"[{"source":"world","destination":"a","amount":10,"asset":"EUR"}]"#,
                ),
                postings: r#"[{"source":"a","destination":"b","amount":11,"asset":"EUR"}]"#,
                told: "posting 0 lacks, has 10",
            },
        ],
    )
}
