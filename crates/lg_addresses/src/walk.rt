//! From one account to the next.

ghost use Rattle.std.specs.Prelude.{◌≡◌, ◌<◌, List, Some};
ghost use Rattle.std.specs.Option.{option_copied, IsSomeAnd};
ghost use Rattle.std.specs.Ordering.{is_gt};
ghost use Rattle.lg_containers.specs.NameOrder.{name_order};
ghost use Rattle.std.specs.List.{find};
ghost use Rattle.lg_types.specs.declared.records.Event.{Event};
ghost use Rattle.lg_types.specs.Known.{accounts};
ghost use Rattle.lg_types.specs.Log.{log};
ghost use Rattle.lg_views.specs.Pairs.{in_byte_order};
ghost use Rattle.lg_shard.specs.Next.{IsNextName, is_behind};
ghost use Rattle.lg_shard.specs.Shown.{is_known};
ghost use Rattle.lg_weigh.specs.Lent.{AreLent, AreParts};
ghost use Rattle.lg_addresses.specs.Next.{IsFirstBehind, is_named, is_stripe, lesser_of};

use lg_shard::Shards;
use lg_types::{Address, LedgerName};
use std::cmp::Ordering;

/// The next account behind the given one that the ledger names, in byte order; where none is given, the first of all.
/// Each of the sixteen shards is asked once, and no memory is taken.
pub fn account_after<'a, S: Shards>(
    shards: &'a S,
    ledger: &LedgerName,
    after: Option<&Address>,
) -> Option<&'a Address>
    requires { AreLent is_stripe (S.lent shards.now) }
    ensures { (events : List Event) → AreParts is_stripe (S.lent shards.now) events → option_copied result ≡ find (is_behind (option_copied after.entry)) (in_byte_order (accounts (log events ledger.now))) }
{
    least_behind(shards, ledger, after)
}

// The least account of all stripes that stands behind the given one.
fn least_behind<'a, S: Shards>(
    shards: &'a S,
    ledger: &LedgerName,
    after: Option<&Address>,
) -> Option<&'a Address>
    requires { AreLent is_stripe (S.lent shards.now) }
    ensures { (events : List Event) → AreParts is_stripe (S.lent shards.now) events → IsFirstBehind (is_named events ledger.now) (option_copied after.entry) (option_copied result) }
{
    let mut least = None;
    for stripe in 0..16u8 {
        let next = next_of(shards, stripe, ledger, after);
        least = lesser(least, next);
    }
    least
}

// The next account behind the given one that the shard of the stripe knows.
fn next_of<'a, S: Shards>(
    shards: &'a S,
    stripe: u8,
    ledger: &LedgerName,
    after: Option<&Address>,
) -> Option<&'a Address>
    requires stripe { stripe < 16 }
    requires lent { AreLent is_stripe (S.lent shards.now) }
    ensures { IsSomeAnd (S.lent shards.now stripe) (λ state. IsNextName (is_known state.shares ledger.now) (option_copied after.entry) (option_copied result)) }
{
    match shards.shard(stripe) {
        Some(shard) => shard.account_after(ledger, after),
        None => unreachable!(),
    }
}

// The lesser of two accounts, of which each may be wanting.
fn lesser<'a>(one: Option<&'a Address>, other: Option<&'a Address>) -> Option<&'a Address>
    ensures { option_copied result ≡ lesser_of (option_copied one.entry) (option_copied other.entry) }
{
    match one {
        None => other,
        Some(one) => Some(lesser_than(one, other)),
    }
}

fn lesser_than<'a>(one: &'a Address, other: Option<&'a Address>) -> &'a Address
    ensures { lesser_of (Some one.now) (option_copied other.entry) ≡ Some result.now }
{
    match other {
        None => one,
        Some(other) => { if is_after(one, other) { other } else { one } }
    }
}

// Whether the name of the first account stands after that of the second.
fn is_after(one: &Address, other: &Address) -> bool
    ensures { result ≡ is_gt (name_order one.now other.now) }
{
    match one.bytes().cmp(other.bytes()) {
        Ordering::Greater => true,
        Ordering::Less => false,
        Ordering::Equal => false,
    }
}
