//! A caller's own token.

use crate::word::Token;
use std::marker::Model;

/// What a caller's calls have seen, how many events they appended, and the caller's weight. Passes that are joined back into one have the weight 2^32.
#[derive(Drop)]
pub struct Pass {
    pub(crate) seat: Token,
}

impl Model for Pass {
    ghost use Rattle.std.specs.Prelude.{◌≡◌, ◌≤◌, false, []};
    ghost use Rattle.lg_turns.specs.Passes.{Told};

    ghost Value = { Told };

    ghost view = { λ p. record { table = p.seat.table_id; seen = p.seat.me.0.seen; made = p.seat.me.0.made; weight = p.seat.me.0.weight } };

    ghost invariant = { λ p. (p.seat.me.1 ≡ []) × (p.seat.me.0.pen ≡ false) × (1 ≤ p.seat.me.0.weight) };
}
