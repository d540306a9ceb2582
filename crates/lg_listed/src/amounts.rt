//! What earlier entries move of one account and one asset.

ghost use Rattle.std.specs.Prelude.{◌≡◌, ◌&&◌, if◌then◌else◌};
ghost use Rattle.std.specs.List.{flat_map};
ghost use Rattle.std.specs.Str.{bytes_eq};
ghost use Rattle.lg_base.specs.Volumes.{sum_of, IsWithinLimit};
ghost use Rattle.lg_types.specs.Moves.{moves, entry_moves, total};
ghost use Rattle.lg_types.specs.MoveLaws.{posting_volumes as volumes_of_posting};
ghost use Rattle.lg_types.specs.Trial.{tried_moves};

use crate::found::transaction_of;
use lg_types::{Address, Amount, Asset, Entry, Posting, Volumes};

/// The volumes with what the entries move of the account and the asset.
pub fn with_entries(known: Volumes, entries: &[Entry], account: &Address, asset: &Asset) -> Volumes
    requires { IsWithinLimit (sum_of known (total (moves entries.now) account.now asset.now)) }
    ensures { result ≡ sum_of known (total (moves entries.now) account.now asset.now) }
{
    let mut sum = known;
    for entry in entries {
        sum = with_entry(sum, entry, account, asset);
    }
    sum
}

/// The volumes with what one entry moves of the account and the asset.
fn with_entry(known: Volumes, entry: &Entry, account: &Address, asset: &Asset) -> Volumes
    requires { IsWithinLimit (sum_of known (total (entry_moves entry.now) account.now asset.now)) }
    ensures { result ≡ sum_of known (total (entry_moves entry.now) account.now asset.now) }
{
    match transaction_of(&entry.body) {
        Some(made) => with_postings(known, made.postings.as_slice(), account, asset),
        None => known,
    }
}

/// The volumes with what the postings move of the account and the asset.
fn with_postings(known: Volumes, postings: &[Posting], account: &Address, asset: &Asset) -> Volumes
    requires { IsWithinLimit (sum_of known (total (flat_map tried_moves postings.now) account.now asset.now)) }
    ensures { result ≡ sum_of known (total (flat_map tried_moves postings.now) account.now asset.now) }
{
    let mut sum = known;
    for posting in postings {
        sum = both(sum, posting_volumes(posting, account, asset));
    }
    sum
}

/// Both volumes together.
fn both(one: Volumes, other: Volumes) -> Volumes
    requires { IsWithinLimit (sum_of one other) }
    ensures { result ≡ sum_of one other }
{
    match one.plus(other) {
        Some(sum) => sum,
        None => unreachable!(),
    }
}

/// What one posting moves of the account and the asset.
fn posting_volumes(posting: &Posting, account: &Address, asset: &Asset) -> Volumes
    ensures { result ≡ volumes_of_posting account.now asset.now posting.now }
{
    let is_asset = posting.asset.bytes() == asset.bytes();
    Volumes {
        input: amount_if(
            is_of(&posting.destination, account) && is_asset,
            posting.amount,
        ),
        output: amount_if(is_of(&posting.source, account) && is_asset, posting.amount),
    }
}

fn is_of(side: &Address, account: &Address) -> bool
    ensures { result ≡ bytes_eq side.now account.now }
{
    side.bytes() == account.bytes()
}

fn amount_if(moves: bool, amount: Amount) -> u128
    ensures { result ≡ (if moves then amount else 0) }
{
    if moves { amount.value() } else { 0 }
}
