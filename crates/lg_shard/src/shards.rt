//! Shards that are lent.

ghost use Rattle.std.specs.Prelude.{◌≡◌, ℕ, Option, IfSome};
ghost use Rattle.std.specs.Option.{option_copied};
ghost use Rattle.lg_shard.specs.State.{StripeState};

use crate::shard::Shard;

/// Some of the shards, by their stripes.
pub trait Shards {
    /// What the shard of each stripe is seen as, and none where the stripe isn't lent.
    ghost lent: { Self → ℕ → Option StripeState };

    /// The shard of the stripe, and `None` exactly where the stripe isn't lent.
    fn shard(&self, stripe: u8) -> Option<&Shard>
        ensures lent { option_copied result ≡ lent self.now stripe }
        ensures own { IfSome result (λ shard. shard.now.stripe ≡ stripe) };
}
