//! The trial of the postings of a write.

ghost use Rattle.std.specs.Prelude.{◌≡◌, ◌++◌, List, length, IfOk, Option, Some};
ghost use Rattle.std.specs.Option.{option_copied};
ghost use Rattle.lg_types.specs.declared.records.Posting.{Posting};
ghost use Rattle.lg_types.specs.declared.refusals.Refusal.{Refusal};
ghost use Rattle.lg_types.specs.Moves.{Placed};
ghost use Rattle.lg_types.specs.Trial.{trial_from, revert_trial_from, reverting as reverting_postings};
ghost use Rattle.lg_sheet.specs.Trials.{MayTry, HaveTotals, Accepted, IsToldStop, IsLackBelow, IsNoLack};
ghost use Rattle.lg_weigh.specs.Trials.{named_postings, made_postings, write_trial_from, Leaves};

use lg_sheet::{Sheet, SheetStop};
use lg_types::{Balances, Duplicate, NoMemory, Posting, Postings, Refusal, Transaction, Write};
use std::alloc::Global;

/// Tries the postings of a write over the lent totals and what the sheet accepted before: those of a creation, and those
/// of the revert of a transaction that is known. Without a refusal the sheet has accepted them.
pub fn try_write<B: Balances>(
    alloc: Global,
    sheet: &mut Sheet,
    lent: &B,
    write: &Write,
    known: Option<&Transaction>,
) -> Result<Option<Refusal>, NoMemory>
    requires { MayTry (B.lends lent.now) (B.totals lent.now) sheet.old (named_postings write.now (option_copied known)) }
    ensures told { IfOk result (λ refused. (ms accepted : List Placed) → HaveTotals (B.totals lent.now) (named_postings write.now (option_copied known.entry)) ms → Accepted sheet.old accepted → refused ≡ write_trial_from (ms ++ accepted) write.now (option_copied known.entry)) }
    ensures leaves { Leaves (B.totals lent.now) sheet.old sheet.new (made_postings write.now (option_copied known.entry)) result }
{
    match write {
        Write::Create {
            postings,
            force,
            ..
        } => try_creation(alloc, sheet, lent, postings, *force),
        Write::Revert { force, .. } => match known {
            Some(original) => try_reverting(alloc, sheet, lent, &original.postings, *force),
            None => Ok(None),
        },
        Write::SetMeta { .. } => Ok(None),
        Write::DropMeta { .. } => Ok(None),
    }
}

/// Tries postings as they stand.
fn try_creation<B: Balances>(
    alloc: Global,
    sheet: &mut Sheet,
    lent: &B,
    postings: &Postings,
    force: bool,
) -> Result<Option<Refusal>, NoMemory>
    requires { MayTry (B.lends lent.now) (B.totals lent.now) sheet.old postings.now }
    ensures told { IfOk result (λ refused. (ms accepted : List Placed) → HaveTotals (B.totals lent.now) postings.now ms → Accepted sheet.old accepted → refused ≡ trial_from (ms ++ accepted) 0 postings.now force) }
    ensures leaves { Leaves (B.totals lent.now) sheet.old sheet.new postings.now result }
{
    match sheet.try_postings(lent, postings, force) {
        Ok(()) => Ok(None),
        Err(stop) => Ok(Some(stop_of_postings(alloc, postings.as_slice(), stop)?)),
    }
}

/// Tries the revert of a transaction with these postings.
fn try_reverting<B: Balances>(
    alloc: Global,
    sheet: &mut Sheet,
    lent: &B,
    postings: &Postings,
    force: bool,
) -> Result<Option<Refusal>, NoMemory>
    requires { MayTry (B.lends lent.now) (B.totals lent.now) sheet.old postings.now }
    ensures told { IfOk result (λ refused. (ms accepted : List Placed) → HaveTotals (B.totals lent.now) postings.now ms → Accepted sheet.old accepted → refused ≡ revert_trial_from (ms ++ accepted) (reverting_postings postings.now) force) }
    ensures leaves { Leaves (B.totals lent.now) sheet.old sheet.new (reverting_postings postings.now) result }
{
    match sheet.try_revert(lent, postings, force) {
        Ok(()) => Ok(None),
        Err(stop) => Ok(Some(stop_of_revert(stop)?)),
    }
}

/// The refusal that a stop tells of the postings.
fn stop_of_postings(
    alloc: Global,
    postings: &[Posting],
    stop: SheetStop,
) -> Result<Refusal, NoMemory>
    requires { IsLackBelow (length postings.now) stop }
    ensures { IfOk result (λ refusal. (told : Option Refusal) → IsToldStop postings.now stop told → told ≡ Some refusal) }
{
    match stop {
        SheetStop::Lack { posting, balance } => {
            let lacking = &postings[posting as usize];
            Ok(Refusal::Lack {
                posting,
                account: lacking.source.copy(alloc)?,
                asset: lacking.asset.copy(alloc)?,
                balance,
                amount: lacking.amount.value(),
            })
        }
        SheetStop::Below {
            account,
            asset,
            balance,
        } => Ok(Refusal::Below {
            account,
            asset,
            balance,
        }),
        SheetStop::Limit { posting } => Ok(Refusal::Limit { posting }),
        SheetStop::NoMemory => Err(NoMemory),
    }
}

/// The refusal that a stop tells of a revert, which never lacks funds at one posting.
fn stop_of_revert(stop: SheetStop) -> Result<Refusal, NoMemory>
    requires { IsNoLack stop }
    ensures { IfOk result (λ refusal. (postings : List Posting) (told : Option Refusal) → IsToldStop postings stop told → told ≡ Some refusal) }
{
    match stop {
        SheetStop::Lack { .. } => unreachable!(),
        SheetStop::Below {
            account,
            asset,
            balance,
        } => Ok(Refusal::Below {
            account,
            asset,
            balance,
        }),
        SheetStop::Limit { posting } => Ok(Refusal::Limit { posting }),
        SheetStop::NoMemory => Err(NoMemory),
    }
}
