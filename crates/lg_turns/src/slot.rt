//! What lies under each lock.
ghost use Rattle.std.specs.Prelude.{◌≡◌, ℕ, ◌<◌, ◌≤◌, true, false, [], length, drop, slice_index};
ghost use Rattle.lg_types.specs.Marked.{events_of, open_end};
ghost use Rattle.lg_types.specs.Parts.{part_of, untouched};
ghost use Rattle.lg_turns.specs.Rules.{IsPen, IsIdle};

use crate::parts::{Journal, Part};
use crate::word::{Name, Token, Word, catch_up};
use std::marker::PhantomData;

/// A stripe's part, and the seat whose list is the one that the part is of.
#[derive(Drop)]
pub struct Slot<P: Part, N: Name> {
    pub part: P,
    pub seat: Token,
    /// The length of that list.
    pub known: u64,
    /// Whether a change may be prepared on the part.
    pub prepared: bool,
    pub of: PhantomData<N>,
    pub ghost named: { seat.table_id ≡ N.table },
    pub ghost empty: { seat.me.1 ≡ [] },
    pub ghost idle: { IsIdle seat.me.0 },
    pub ghost known_is: { length seat.me.0.seen ≡ known },
    pub ghost is_part: { P.shares part ≡ part_of (P.stripe_of part) (events_of seat.me.0.seen) },
    pub ghost clean: { prepared ≡ false → P.clean part ≡ true },
}

/// The journal, the seat that adds events, and the stamps: the number of all events after the last change that touched the stripe.
#[derive(Drop)]
pub struct Desk<J: Journal, N: Name> {
    pub journal: J,
    pub pen: Token,
    pub stamps: [u64; 16],
    /// Whether a change may be prepared on the journal.
    pub prepared: bool,
    pub of: PhantomData<N>,
    pub ghost named: { pen.table_id ≡ N.table },
    pub ghost empty: { pen.me.1 ≡ [] },
    pub ghost pen_is: { IsPen pen.me.0 },
    pub ghost some: { 0 < length pen.me.0.seen },
    pub ghost ends: { open_end pen.me.0.seen ≡ 0 },
    pub ghost list: { J.events journal ≡ events_of pen.me.0.seen },
    pub ghost stamped: { (s : ℕ) → s < 16 → untouched s (drop (slice_index stamps s) (J.events journal)) ≡ true },
    pub ghost clean: { prepared ≡ false → J.clean journal ≡ true },
}

/// Brings a part's seat up to all events, where none since the stamp touches the stripe.
pub(crate) fn refresh_slot<P: Part, N: Name>(
    word: &Word<N>,
    slot: &mut Slot<P, N>,
    pen: &mut Token,
    stamp: u64,
)
    requires table { pen.old.table_id ≡ N.table }
    requires pen { IsPen pen.old.me.0 }
    requires current { stamp ≤ slot.old.known }
    requires quiet { untouched (P.stripe_of slot.old.part) (drop stamp (events_of pen.old.me.0.seen)) ≡ true }
    ensures table { pen.new.table_id ≡ N.table }
    ensures pen { IsPen pen.new.me.0 }
    ensures seen { pen.new.me.0.seen ≡ pen.old.me.0.seen }
    ensures slots { pen.new.me.1 ≡ pen.old.me.1 }
    ensures same { (slot.new.part ≡ slot.old.part) × (slot.new.prepared ≡ slot.old.prepared) }
    ensures known { slot.new.known ≡ length pen.old.me.0.seen }
    ensures shares { P.shares slot.new.part ≡ part_of (P.stripe_of slot.new.part) (events_of pen.old.me.0.seen) }
{
    let Slot { seat, known, .. } = slot;
    *known = catch_up(word, seat, pen);
}
