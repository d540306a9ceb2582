//! A shard as what lies under the lock of a stripe.

use crate::shard::Shard;
use lg_turns::Part;

impl Part for Shard {
    ghost use Rattle.std.specs.Prelude.{nat_eq, length};

    ghost shares = { λ s. s.shares };

    ghost stripe_of = { λ s. s.stripe };

    ghost clean = { λ s. nat_eq (length s.prepared) 0 };

    fn stripe(&self) -> u8 {
        Shard::stripe(self)
    }
}
