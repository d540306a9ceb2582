//! What lent shards know stays within the limit.

ghost use Rattle.std.specs.Prelude.{IfSome};
ghost use Rattle.lg_decide.specs.Deciding.{AreLimited, IsLimited};

use lg_shard::Shards;

/// A law of lent shards: the totals of all accounts that they know are within the limit. It asks for each shard, and reads
/// nothing.
pub fn totals_within<S: Shards>(lent: &S)
    ensures { AreLimited (S.lent lent.now) }
{
    for stripe in 0..16u8 {
        stripe_within(lent, stripe);
    }
}

/// The same of one stripe.
fn stripe_within<S: Shards>(lent: &S, stripe: u8)
    ensures { IfSome (S.lent lent.now stripe) IsLimited }
{
    match lent.shard(stripe) {
        Some(shard) => shard.totals_within(),
        None => {}
    }
}
