//! The trial of a revert: the limit over all postings first, then the balances after all of them.

ghost use Rattle.std.specs.Prelude.{◌≡◌, ◌&&◌, not, pos, int_lt, List, All, OnOk, OnErr, IfErr, Some};
ghost use Rattle.lg_base.specs.Volumes.{IsWithinLimit, balance_of};
ghost use Rattle.lg_types.specs.declared.refusals.Refusal.TheVariants.{Below};
ghost use Rattle.lg_types.specs.declared.records.Posting.{Posting};
ghost use Rattle.lg_types.specs.Moves.{Placed};
ghost use Rattle.lg_types.specs.Trial.{is_world, reverting, below_in, revert_trial_from};
ghost use Rattle.lg_sheet.specs.Working.{IsOpen, SameVolumes};
ghost use Rattle.lg_sheet.specs.Trials.{OfBoth, present as volumes_at, MayTry, HaveTotals, Booked, StaysWithin, IsTold, IsToldStop, IsNoLack};

use crate::lines::{Line, Order, line_at};
use crate::stop::SheetStop;
use crate::trial::{book, is_the_world, present, take_back};
use crate::working::Working;
use lg_types::{Balances, Duplicate, Posting, Volumes};
use std::alloc::Global;

/// Books the revert of the postings. After a stop nothing is booked.
pub fn book_revert<B: Balances>(
    alloc: Global,
    lent: &B,
    working: &mut Working,
    postings: &[Posting],
    force: bool,
) -> Result<(), SheetStop>
    requires may { MayTry (B.lends lent.now) (B.totals lent.now) working.old postings.now }
    requires places { All (OfBoth (IsOpen working.old)) postings.now }
    ensures told { (ms : List Placed) → HaveTotals (volumes_at (B.totals lent.now) working.old) postings.now ms → IsTold (reverting postings.now) result (revert_trial_from ms (reverting postings.now) force) }
    ensures booked { OnOk result (Booked working.old working.new (reverting postings.now)) }
    ensures within { OnOk result (StaysWithin (B.totals lent.now) working.old working.new) }
    ensures stopped { OnErr result (SameVolumes working.old working.new) }
    ensures funds { IfErr result IsNoLack }
{
    match book(lent, working, postings, Order::Reverting, true) {
        Ok(()) => {}
        Err(stop) => return Err(stop),
    }
    if force {
        return Ok(());
    }
    match find_below(alloc, lent, working, postings) {
        Ok(()) => Ok(()),
        Err(stop) => {
            take_back(working, postings, Order::Reverting, postings.len());
            Err(stop)
        }
    }
}

/// Stops at the first source of the revert, other than `world`, whose balance is below zero.
fn find_below<B: Balances>(
    alloc: Global,
    lent: &B,
    working: &Working,
    postings: &[Posting],
) -> Result<(), SheetStop>
    requires { MayTry (B.lends lent.now) (B.totals lent.now) working.now postings.now }
    ensures told { (ms : List Placed) → HaveTotals (volumes_at (B.totals lent.now) working.now) postings.now ms → IsTold (reverting postings.now) result (below_in ms (reverting postings.now)) }
    ensures funds { IfErr result IsNoLack }
{
    for place in 0..postings.len() {
        let line = line_at(postings, Order::Reverting, place);
        let source = present(lent, working, line.source, line.asset);
        if is_below_zero(&source, &line) {
            return Err(below(alloc, &line, &source));
        }
    }
    Ok(())
}

/// Whether a source other than `world` with these volumes is below zero.
fn is_below_zero(source: &Volumes, line: &Line<'_>) -> bool
    requires { IsWithinLimit source.now }
    ensures { result ≡ (not (is_world line.now.source.now) && int_lt (balance_of source.now) (pos 0)) }
{
    !is_the_world(line.source) && source.balance() < 0
}

/// The stop at an account that would be below zero.
fn below(alloc: Global, line: &Line<'_>, source: &Volumes) -> SheetStop
    requires { IsWithinLimit source.now }
    ensures told { (postings : List Posting) → IsToldStop postings result (Some (Below line.now.source.now line.now.asset.now (balance_of source.now))) }
    ensures funds { IsNoLack result }
{
    let (Ok(account), Ok(asset)) = (line.source.copy(alloc), line.asset.copy(alloc)) else {
        return SheetStop::NoMemory;
    };
    SheetStop::Below {
        account,
        asset,
        balance: source.balance(),
    }
}
