//! Passes are made, split, joined and spent.
ghost use Rattle.std.specs.Prelude.{◌≡◌, ℕ, ◌+◌, ◌^◌, ◌<◌, ◌≤◌, ◌⊎◌, false, length};
ghost use Rattle.lg_types.specs.Lists.{IsPrefix};
ghost use Rattle.lg_types.specs.Marked.{events_of};

use crate::parts::{Journal, Part};
use crate::pass::Pass;
use crate::slot::Desk;
use crate::turns::Turns;
use crate::word::{Name, Token, Word};

/// Spends a pass of all the weight. All events but the first were made by passes that were joined into it.
fn close_desk<J: Journal, N: Name>(word: &Word<N>, desk: Desk<J, N>, seat: Token) -> J
    requires table { seat.table_id ≡ N.table }
    requires weight { seat.me.0.weight ≡ 2 ^ 32 }
    requires penless { seat.me.0.pen ≡ false }
    ensures seen { IsPrefix (events_of seat.me.0.seen) (J.events result) }
    ensures made { seat.me.0.made + 1 ≡ length (J.events result) }
{
    let Desk { journal, pen, .. } = desk;
    let mut seat = seat;
    word.join(&mut seat, pen);
    word.look(&mut seat);
    journal
}

impl<P: Part, J: Journal, N: Name> Turns<P, J, N> {
    /// A new pass that has seen the same and has made nothing. It takes the weight 1.
    pub fn split_pass(&self, pass: &mut Pass) -> Pass
        requires table { pass.old.table ≡ N.table }
        requires weight { 2 ≤ pass.old.weight }
        ensures table { (pass.new.table ≡ N.table) × (result.table ≡ N.table) }
        ensures seen { (pass.new.seen ≡ pass.old.seen) × (result.seen ≡ pass.old.seen) }
        ensures made { (pass.new.made ≡ pass.old.made) × (result.made ≡ 0) }
        ensures weight { (pass.new.weight + 1 ≡ pass.old.weight) × (result.weight ≡ 1) }
    {
        let seat = self.word.share(&mut pass.seat);
        Pass { seat }
    }

    /// The pass has then seen the longer of the two lists, which the other is a prefix of.
    pub fn join_pass(&self, pass: &mut Pass, other: Pass)
        requires { (pass.old.table ≡ N.table) × (other.table ≡ N.table) }
        ensures table { pass.new.table ≡ N.table }
        ensures seen { IsPrefix pass.old.seen pass.new.seen × IsPrefix other.seen pass.new.seen × ((pass.new.seen ≡ pass.old.seen) ⊎ (pass.new.seen ≡ other.seen)) }
        ensures sums { (pass.new.made ≡ pass.old.made + other.made) × (pass.new.weight ≡ pass.old.weight + other.weight) }
    {
        let Pass { seat } = other;
        self.word.join(&mut pass.seat, seat);
        self.word.look(&mut pass.seat);
    }
}

impl<P: Part + Drop, J: Journal, N: Name> Turns<P, J, N> {
    /// Gives the journal back. The pass has all the weight, so no other pass is out.
    pub fn close(self, pass: Pass) -> J
        requires table { pass.table ≡ N.table }
        requires weight { pass.weight ≡ 2 ^ 32 }
        ensures seen { IsPrefix (events_of pass.seen) (J.events result) }
        ensures made { pass.made + 1 ≡ length (J.events result) }
    {
        let Turns {
            word,
            stripes,
            desk,
        } = self;
        drop(stripes);
        let Pass { seat } = pass;
        close_desk(&word, desk.into_inner(), seat)
    }
}
