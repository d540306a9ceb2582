//! What postings move of one account and one asset.

ghost use Rattle.std.specs.Prelude.{◌≡◌, if◌then◌else◌};
ghost use Rattle.std.specs.List.{flat_map};
ghost use Rattle.std.specs.Str.{bytes_eq};
ghost use Rattle.lg_base.specs.Volumes.{sum_of, IsWithinLimit};
ghost use Rattle.lg_types.specs.Moves.{total};
ghost use Rattle.lg_types.specs.MoveLaws.{posting_volumes as volumes_of_posting};
ghost use Rattle.lg_types.specs.Trial.{tried_moves};

use lg_base::Volumes;
use lg_types::{Address, Amount, Asset, Posting};

/// Both volumes together.
pub fn both(one: Volumes, other: Volumes) -> Volumes
    requires { IsWithinLimit (sum_of one other) }
    ensures { result ≡ sum_of one other }
{
    match one.plus(other) {
        Some(sum) => sum,
        None => unreachable!(),
    }
}

/// What the postings move of the account and the asset.
pub fn postings_volumes(postings: &[Posting], account: &Address, asset: &Asset) -> Volumes
    requires { IsWithinLimit (total (flat_map tried_moves postings.now) account.now asset.now) }
    ensures { result ≡ total (flat_map tried_moves postings.now) account.now asset.now }
{
    let mut sum = Volumes::zero();
    for posting in postings {
        sum = both(sum, posting_volumes(posting, account, asset));
    }
    sum
}

/// What one posting moves of the account and the asset.
fn posting_volumes(posting: &Posting, account: &Address, asset: &Asset) -> Volumes
    ensures { result ≡ volumes_of_posting account.now asset.now posting.now }
{
    let is_asset = posting.asset.bytes() == asset.bytes();
    Volumes {
        input: amount_if(
            is_of(&posting.destination, account) && is_asset,
            posting.amount,
        ),
        output: amount_if(is_of(&posting.source, account) && is_asset, posting.amount),
    }
}

fn is_of(side: &Address, account: &Address) -> bool
    ensures { result ≡ bytes_eq side.now account.now }
{
    side.bytes() == account.bytes()
}

fn amount_if(moves: bool, amount: Amount) -> u128
    ensures { result ≡ (if moves then amount else 0) }
{
    if moves { amount.value() } else { 0 }
}
