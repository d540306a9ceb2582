//! Postings that are tried and booked one after the other.

ghost use Rattle.std.specs.Prelude.{◌≡◌, ◌≤◌, ◌<◌, ◌+◌, ◌^◌, ◌&&◌, not, ℕ, ℤ, pos, nat_lt, int_lt, List, length, take, All, OnOk, OnErr, IfErr, IfSome, IsTrue, None, Some, codes};
ghost use Rattle.std.specs.List.{flat_map};
ghost use Rattle.std.specs.Str.{bytes_eq};
ghost use Rattle.lg_base.specs.Volumes.{IsWithinLimit, balance_of, sum_of};
ghost use Rattle.lg_types.specs.Moves.{Placed, total};
ghost use Rattle.lg_types.specs.Trial.{is_world, passes_limit, tried_moves, trial_from};
ghost use Rattle.lg_sheet.specs.Lines.{posting_of, ordered};
ghost use Rattle.lg_sheet.specs.Working.{worked, IsOpen, StaysOpen, SameVolumes};
ghost use Rattle.lg_sheet.specs.Trials.{OfBoth, present as volumes_at, MayTry, HaveTotals, Booked, StaysWithin, IsTold, tried, line_refusal, HasRoom, IsLackBelow, IsNoLack, IsLineLimit};
ghost use Rattle.lg_sheet.specs.Back.{HasBooked};

use crate::lines::{Line, Order, line_at};
use crate::stop::{LineStop, SheetStop, stop_at};
use crate::working::{Working, add_line, take_line, volumes_of};
use lg_types::{Address, Amount, Asset, Balances, Posting, Volumes};

/// The greatest input or output.
const LIMIT: u128 = 170141183460469231731687303715884105727;

/// Books the postings in the order, each where it doesn't lack funds or pass the limit after the ones before it. After
/// a stop nothing is booked.
pub fn book<B: Balances>(
    lent: &B,
    working: &mut Working,
    postings: &[Posting],
    order: Order,
    force: bool,
) -> Result<(), SheetStop>
    requires may { MayTry (B.lends lent.now) (B.totals lent.now) working.old postings.now }
    requires places { All (OfBoth (IsOpen working.old)) postings.now }
    ensures told { (ms : List Placed) → HaveTotals (volumes_at (B.totals lent.now) working.old) postings.now ms → IsTold (ordered order postings.now) result (trial_from ms 0 (ordered order postings.now) force) }
    ensures booked { OnOk result (Booked working.old working.new (ordered order postings.now)) }
    ensures stopped { OnErr result (SameVolumes working.old working.new) }
    ensures stays { StaysOpen working.old working.new }
    ensures within { OnOk result (StaysWithin (B.totals lent.now) working.old working.new) }
    ensures place { IfErr result (IsLackBelow (length postings.now)) }
    ensures forced { IsTrue force → IfErr result IsNoLack }
{
    for place in 0..postings.len() {
        let line = line_at(postings, order, place);
        match try_line(lent, working, &line, force) {
            Some(stop) => {
                take_back(working, postings, order, place);
                return Err(stop_at(place, stop));
            }
            None => add_line(working, &line),
        }
    }
    Ok(())
}

/// Takes back the first postings of the order, so many as are booked.
pub fn take_back(working: &mut Working, postings: &[Posting], order: Order, booked: usize)
    requires bound { booked ≤ length postings.now }
    requires places { All (OfBoth (IsOpen working.old)) postings.now }
    requires booked { HasBooked working.old (take booked (ordered order postings.now)) }
    ensures back { (account asset : List ℕ) → sum_of (worked working.new account asset) (total (flat_map tried_moves (take booked (ordered order postings.now))) account asset) ≡ worked working.old account asset }
    ensures stays { StaysOpen working.old working.new }
{
    let mut left = booked;
    while left > 0 {
        left -= 1;
        take_line(working, &line_at(postings, order, left));
    }
}

/// The trial of one posting.
fn try_line<B: Balances>(
    lent: &B,
    working: &Working,
    line: &Line<'_>,
    force: bool,
) -> Option<LineStop>
    requires lent_source { IsTrue (B.lends lent.now line.now.source.now) }
    requires lent_destination { IsTrue (B.lends lent.now line.now.destination.now) }
    requires source { IsWithinLimit (volumes_at (B.totals lent.now) working.now line.now.source.now line.now.asset.now) }
    requires destination { IsWithinLimit (volumes_at (B.totals lent.now) working.now line.now.destination.now line.now.asset.now) }
    ensures tried { (ms : List Placed) (place : ℕ) → total ms line.now.source.now line.now.asset.now ≡ volumes_at (B.totals lent.now) working.now line.now.source.now line.now.asset.now → total ms line.now.destination.now line.now.asset.now ≡ volumes_at (B.totals lent.now) working.now line.now.destination.now line.now.asset.now → line_refusal place (posting_of line.now) result ≡ tried ms force place (posting_of line.now) }
    ensures forced { IsTrue force → IfSome result IsLineLimit }
    ensures room { result ≡ None → HasRoom (volumes_at (B.totals lent.now) working.now line.now.source.now line.now.asset.now) (volumes_at (B.totals lent.now) working.now line.now.destination.now line.now.asset.now) line.now.amount }
{
    let source = present(lent, working, line.source, line.asset);
    if !force && is_lacking(&source, line) {
        return Some(LineStop::Lack {
            balance: source.balance(),
        });
    }
    let destination = present(lent, working, line.destination, line.asset);
    if is_past(source.output, line.amount) || is_past(destination.input, line.amount) {
        return Some(LineStop::Limit);
    }
    None
}

/// The lent volumes with those that the sheet works out.
pub fn present<B: Balances>(
    lent: &B,
    working: &Working,
    account: &Address,
    asset: &Asset,
) -> Volumes
    requires lent { IsTrue (B.lends lent.now account.now) }
    requires within { IsWithinLimit (volumes_at (B.totals lent.now) working.now account.now asset.now) }
    ensures { result ≡ volumes_at (B.totals lent.now) working.now account.now asset.now }
{
    let before = lent.volumes(account, asset);
    let own = volumes_of(working, account, asset);
    Volumes {
        input: before.input + own.input,
        output: before.output + own.output,
    }
}

/// Whether the account is `world`, which may go below zero.
pub fn is_the_world(account: &Address) -> bool
    ensures { result ≡ is_world account.now }
{
    account.bytes() == b"world".as_slice()
}

/// Whether a source with these volumes lacks funds for the posting.
fn is_lacking(source: &Volumes, line: &Line<'_>) -> bool
    requires { IsWithinLimit source.now }
    ensures { result ≡ (not (is_world line.now.source.now) && (nat_lt 0 line.now.amount && int_lt (balance_of source.now) (pos line.now.amount))) }
{
    !is_the_world(line.source)
        && 0 < line.amount.value()
        && source.balance() < line.amount.value() as i128
}

/// Whether a volume passes the limit with the amount.
fn is_past(volume: u128, amount: Amount) -> bool
    requires { volume < 2 ^ 127 }
    ensures { result ≡ passes_limit (volume + amount) }
{
    LIMIT < volume + amount.value()
}
