//! All shards, lent to a call.

ghost use Rattle.std.specs.Prelude.{◌≡◌, ℕ, Some, slice_get};
ghost use Rattle.lg_shard.specs.State.{StripeState};

use lg_shard::{Shard, Shards};

/// The shards of all stripes, each at the place of its stripe.
#[derive(Clone, Copy)]
pub struct AllShards<'a> {
    pub shards: &'a [Shard],
    pub ghost placed: { (k : ℕ) (state : StripeState) → slice_get shards.now k ≡ Some state → state.stripe ≡ k },
}

impl<'a> Shards for AllShards<'a> {
    ghost use Rattle.std.specs.Prelude.{slice_get};

    ghost lent = { λ x k. slice_get x.shards.now k };

    fn shard(&self, stripe: u8) -> Option<&Shard> {
        self.shards.get(stripe as usize)
    }
}
