//! Sets of stripes.
ghost use Rattle.std.specs.Prelude.{◌≡◌, ℕ, ◌<◌, ◌||◌, false, nat_eq, nat_lt};
ghost use Rattle.lg_turns.specs.Stripes.{has};

/// A set of stripes. Stripes are numbered from 0 to 15.
#[derive(Clone, Copy)]
pub struct StripeSet {
    bits: u16,
}

impl StripeSet {
    pub fn none() -> StripeSet
        ensures { (k : ℕ) → has result k ≡ false }
    {
        StripeSet { bits: 0 }
    }

    pub fn all() -> StripeSet
        ensures { (k : ℕ) → has result k ≡ nat_lt k 16 }
    {
        StripeSet { bits: 0xFFFF }
    }

    /// The set with one more stripe.
    pub fn with(self, stripe: u8) -> StripeSet
        requires { stripe < 16 }
        ensures { (k : ℕ) → has result k ≡ (nat_eq k stripe || has self k) }
    {
        StripeSet {
            bits: self.bits | (1 << stripe),
        }
    }

    pub fn has(self, stripe: u8) -> bool
        ensures { result ≡ has self stripe }
    {
        stripe < 16 && (self.bits >> stripe) & 1 == 1
    }
}
