//! A part that keeps the events that touch its stripe.

ghost use Rattle.std.specs.Prelude.{◌≡◌, ℕ, ◌≤◌, true, [], Some, vec_len, slice_get, IfOk};
ghost use Rattle.lg_types.specs.Lists.{Each};

use lg_turns::{NoMemory, Part};
use lg_types::Event;
use std::alloc::Global;

/// An event with its place in the list of all events.
#[derive(Drop)]
pub struct Kept {
    pub place: u64,
    pub event: Event,
}

/// What one stripe holds: the events that were applied, and after them at most one that is prepared.
#[derive(Drop)]
pub struct PlainPart {
    pub(crate) stripe: u8,
    pub(crate) kept: Vec<Kept>,
    /// How many were applied.
    pub(crate) applied: usize,
    pub ghost within: { applied ≤ vec_len kept },
}

impl Part for PlainPart {
    ghost use Rattle.std.specs.Prelude.{length, take, nat_eq};
    ghost use Rattle.lg_turns_plain.specs.Keeping.{kept_shares};

    ghost shares = { λ p. kept_shares p.stripe (take p.applied p.kept.items) };

    ghost stripe_of = { λ p. p.stripe };

    ghost clean = { λ p. nat_eq (length p.kept.items) p.applied };

    fn stripe(&self) -> u8 {
        self.stripe
    }
}

impl PlainPart {
    /// The part of the stripe, without events.
    pub fn new(alloc: Global, stripe: u8) -> PlainPart
        ensures stripe { ⟦<PlainPart as Part>⟧.stripe_of result ≡ stripe }
        ensures clean { ⟦<PlainPart as Part>⟧.clean result ≡ true }
        ensures shares { ⟦<PlainPart as Part>⟧.shares result ≡ [] }
    {
        PlainPart {
            stripe,
            kept: Vec::new(alloc),
            applied: 0,
        }
    }

    /// The parts of all stripes, in their order.
    pub fn all(alloc: Global) -> Result<Vec<PlainPart>, NoMemory>
        ensures count { IfOk result (λ all. vec_len all ≡ 16) }
        ensures order { IfOk result (λ all. (k : ℕ) (p : PlainPart) → slice_get all.items k ≡ Some p → ⟦<PlainPart as Part>⟧.stripe_of p ≡ k) }
        ensures empty { IfOk result (λ all. Each (λ p. (⟦<PlainPart as Part>⟧.clean p ≡ true) × (⟦<PlainPart as Part>⟧.shares p ≡ [])) all.items) }
    {
        let mut all = Vec::new(alloc);
        for stripe in 0..16u8 {
            all.push(PlainPart::new(alloc, stripe))?;
        }
        Ok(all)
    }
}
