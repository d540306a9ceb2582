//! A new object: sixteen parts and a journal of one event.
ghost use Rattle.std.specs.Prelude.{◌≡◌, ℕ, ◌+◌, ◌^◌, ◌<◌, true, [], Some, length, slice_get};
ghost use Rattle.lg_types.specs.Lists.{Each};
ghost use Rattle.lg_types.specs.Marked.{opening};
ghost use Rattle.lg_types.specs.Parts.{untouched};
ghost use Rattle.lg_turns.specs.Rules.{begun};

use crate::parts::{Journal, Part};
use crate::pass::Pass;
use crate::rule::Added;
use crate::sixteen::Sixteen;
use crate::slot::{Desk, Slot};
use crate::turns::Turns;
use crate::word::{Blank, Name, Token, Word};
use std::marker::{Brand, PhantomData};
use std::sync::Mutex;

/// Puts the last of the parts under a lock.
fn lock_part<P: Part, N: Name>(
    word: &Word<N>,
    seat: &mut Token,
    parts: &mut Vec<P>,
) -> Mutex<Slot<P, N>>
    requires table { seat.old.table_id ≡ N.table }
    requires some { 0 < length parts.old.items }
    requires parts { Each (λ p. (P.clean p ≡ true) × (P.shares p ≡ [])) parts.old.items }
    ensures table { seat.new.table_id ≡ N.table }
    ensures view { seat.new.me.0 ≡ seat.old.me.0 }
    ensures slots { seat.new.me.1 ≡ seat.old.me.1 }
    ensures count { length parts.new.items + 1 ≡ length parts.old.items }
    ensures parts { Each (λ p. (P.clean p ≡ true) × (P.shares p ≡ [])) parts.new.items }
{
    let Some(part) = parts.pop() else {
        unreachable!()
    };
    let idle = word.idle(seat);
    Mutex::new(Slot {
        part,
        seat: idle,
        known: 0,
        prepared: false,
        of: PhantomData,
    })
}

/// The word counts the first event.
fn open_word<J: Journal, N: Name, X: Added>(word: &Word<N>, seat: &mut Token, journal: &J)
    requires marked { X.marked ≡ opening (J.events journal.now) }
    requires table { seat.old.table_id ≡ N.table }
    requires pen { seat.old.me.0.pen ≡ true }
    requires none { seat.old.me.0.seen ≡ [] }
    requires count { length (J.events journal.now) ≡ 1 }
    ensures table { seat.new.table_id ≡ N.table }
    ensures view { seat.new.me.0 ≡ begun (opening (J.events journal.now)) seat.old.me.0 }
    ensures slots { seat.new.me.1 ≡ seat.old.me.1 }
{
    word.open::<X>(seat);
}

impl<P: Part + Drop, J: Journal, N: Name> Turns<P, J, N> {
    /// Takes sixteen parts in the order of their stripes, and a journal of one event that has no resource.
    pub fn new(blank: Blank, parts: Vec<P>, journal: J) -> (Turns<P, J, N>, Pass)
        requires table { blank.table.shared.table_id ≡ N.table }
        requires count { length parts.items ≡ 16 }
        requires order { (k : ℕ) (p : P) → slice_get parts.items k ≡ Some p → P.stripe_of p ≡ k }
        requires parts { Each (λ p. (P.clean p ≡ true) × (P.shares p ≡ [])) parts.items }
        requires clean { J.clean journal ≡ true }
        requires one { length (J.events journal) ≡ 1 }
        requires quiet { (k : ℕ) → k < 16 → untouched k (J.events journal) ≡ true }
        ensures table { result.1.table ≡ N.table }
        ensures seen { result.1.seen ≡ opening (J.events journal) }
        ensures made { result.1.made ≡ 0 }
        ensures weight { result.1.weight ≡ 2 ^ 32 }
    {
        let Blank { table, seat } = blank;
        let word: Word<N> = Word::of(table);
        let mut seat = seat;
        let mut parts = parts;
        open_word::<J, N, Brand>(&word, &mut seat, &journal);
        let pen = word.pen_off(&mut seat);
        let part_15 = lock_part(&word, &mut seat, &mut parts);
        let part_14 = lock_part(&word, &mut seat, &mut parts);
        let part_13 = lock_part(&word, &mut seat, &mut parts);
        let part_12 = lock_part(&word, &mut seat, &mut parts);
        let part_11 = lock_part(&word, &mut seat, &mut parts);
        let part_10 = lock_part(&word, &mut seat, &mut parts);
        let part_9 = lock_part(&word, &mut seat, &mut parts);
        let part_8 = lock_part(&word, &mut seat, &mut parts);
        let part_7 = lock_part(&word, &mut seat, &mut parts);
        let part_6 = lock_part(&word, &mut seat, &mut parts);
        let part_5 = lock_part(&word, &mut seat, &mut parts);
        let part_4 = lock_part(&word, &mut seat, &mut parts);
        let part_3 = lock_part(&word, &mut seat, &mut parts);
        let part_2 = lock_part(&word, &mut seat, &mut parts);
        let part_1 = lock_part(&word, &mut seat, &mut parts);
        let part_0 = lock_part(&word, &mut seat, &mut parts);
        let stripes = Sixteen::of(
            part_0, part_1, part_2, part_3, part_4, part_5, part_6, part_7, part_8, part_9,
            part_10, part_11, part_12, part_13, part_14, part_15,
        );
        let desk = Desk {
            journal,
            pen,
            stamps: [0; 16],
            prepared: false,
            of: PhantomData,
        };
        let turns = Turns {
            word,
            stripes,
            desk: Mutex::new(desk),
        };
        (turns, Pass { seat })
    }
}
