//! What lent shards know stays within the limit.

ghost use Rattle.std.specs.Prelude.{IfSome};
ghost use Rattle.lg_shard.specs.Shown.{AreWithinLimit};
ghost use Rattle.lg_weigh.specs.Totals.{AreShardsWithin};

use lg_shard::Shards;

/// A law of lent shards: what they hold adds up within the limit. It asks for each shard, and reads nothing.
pub fn totals_within<S: Shards>(lent: &S)
    ensures { AreShardsWithin (S.lent lent.now) }
{
    for stripe in 0..16u8 {
        match lent.shard(stripe) {
            Some(shard) => shard.totals_within(),
            None => {}
        }
    }
}
