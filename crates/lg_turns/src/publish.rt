//! A prepared change is published: the word rises once, and then the held parts and the journal take the events.
ghost use Rattle.std.specs.Prelude.{◌≡◌, ℕ, ◌+◌, ◌^◌, ◌<◌, ◌≤◌, ◌++◌, List, true, false, Some, cond, length, drop, slice_get, slice_index};
ghost use Rattle.std.specs.Sync.Mutex.{mutex_guard_value};
ghost use Rattle.lg_types.specs.declared.records.Event.{Event};
ghost use Rattle.lg_types.specs.Marked.{events_of, marks, open_end};
ghost use Rattle.lg_types.specs.Parts.{part_of, untouched};
ghost use Rattle.lg_turns.specs.Stripes.{has};
ghost use Rattle.lg_turns.specs.Rules.{IsPen, grown};
ghost use Rattle.lg_turns.specs.Rows.{AllHeld, SameHeld, Applying, Applied, Staged};

use crate::parts::{Change, Journal, Part};
use crate::rule::Added;
use crate::sixteen::Sixteen;
use crate::slot::{Desk, Slot};
use crate::stripes::StripeSet;
use crate::word::{Name, Token, Word, catch_up};
use std::marker::Brand;
use std::snapshot::Snapshot;
use std::sync::MutexGuard;

fn raise_word<P: Part, J: Journal, N: Name, C: Change<P, J>, X: Added>(
    word: &Word<N>,
    seat: &mut Token,
    change: &C,
    count: u64,
)
    requires marked { X.marked ≡ marks (C.mark change.now) (C.added change.now) }
    requires table { seat.old.table_id ≡ N.table }
    requires pen { seat.old.me.0.pen ≡ true }
    requires weight { 0 < seat.old.me.0.weight }
    requires some { 0 < length seat.old.me.0.seen }
    requires count { count ≡ length (C.added change.now) }
    requires ends { open_end seat.old.me.0.seen ≡ 0 }
    requires room { length seat.old.me.0.seen + count < 2 ^ 64 }
    ensures table { seat.new.table_id ≡ N.table }
    ensures view { seat.new.me.0 ≡ grown (marks (C.mark change.now) (C.added change.now)) seat.old.me.0 }
    ensures slots { seat.new.me.1 ≡ seat.old.me.1 }
{
    word.raise::<X>(seat, count);
}

/// The word rises once by the number of events, and the caller has made and seen them. Gives the number of all events.
fn publish_word<P: Part, J: Journal, N: Name, C: Change<P, J>>(
    word: &Word<N>,
    seat: &mut Token,
    pen: &mut Token,
    change: &C,
    count: u64,
) -> u64
    requires table { (seat.old.table_id ≡ N.table) × (pen.old.table_id ≡ N.table) }
    requires pen { IsPen pen.old.me.0 }
    requires seat { (seat.old.me.0.pen ≡ false) × (0 < seat.old.me.0.weight) }
    requires some { 0 < length pen.old.me.0.seen }
    requires count { count ≡ length (C.added change.now) }
    requires ends { open_end pen.old.me.0.seen ≡ 0 }
    requires room { length pen.old.me.0.seen + count < 2 ^ 64 }
    ensures table { (seat.new.table_id ≡ N.table) × (pen.new.table_id ≡ N.table) }
    ensures slots { (seat.new.me.1 ≡ seat.old.me.1) × (pen.new.me.1 ≡ pen.old.me.1) }
    ensures pen { IsPen pen.new.me.0 }
    ensures all { pen.new.me.0.seen ≡ pen.old.me.0.seen ++ marks (C.mark change.now) (C.added change.now) }
    ensures seen { seat.new.me.0.seen ≡ pen.old.me.0.seen ++ marks (C.mark change.now) (C.added change.now) }
    ensures made { seat.new.me.0.made ≡ seat.old.me.0.made + length (C.added change.now) }
    ensures weight { seat.new.me.0.weight ≡ seat.old.me.0.weight }
    ensures penless { seat.new.me.0.pen ≡ false }
    ensures ends { open_end pen.new.me.0.seen ≡ 0 }
    ensures front { result ≡ length pen.new.me.0.seen }
{
    let whole = word.whole(pen);
    word.join(seat, whole);
    raise_word::<P, J, N, C, Brand>(word, seat, change, count);
    let front = word.look(seat);
    let off = word.pen_off(seat);
    word.join(pen, off);
    front
}

fn apply_slot<P: Part, J: Journal, N: Name, C: Change<P, J>>(
    word: &Word<N>,
    slot: &mut Slot<P, N>,
    pen: &mut Token,
    change: &C,
    before: &Snapshot<J>,
)
    requires table { pen.old.table_id ≡ N.table }
    requires pen { IsPen pen.old.me.0 }
    requires all { events_of pen.old.me.0.seen ≡ J.events before.now.value ++ C.added change.now }
    requires on { C.on_part change.now slot.old.part }
    requires fits { C.fits change.now (J.events before.now.value) }
    requires shares { P.shares slot.old.part ≡ part_of (P.stripe_of slot.old.part) (J.events before.now.value) }
    ensures table { pen.new.table_id ≡ N.table }
    ensures pen { IsPen pen.new.me.0 }
    ensures seen { pen.new.me.0.seen ≡ pen.old.me.0.seen }
    ensures slots { pen.new.me.1 ≡ pen.old.me.1 }
    ensures known { slot.new.known ≡ length (J.events before.now.value ++ C.added change.now) }
    ensures stripe { P.stripe_of slot.new.part ≡ P.stripe_of slot.old.part }
    ensures shares { P.shares slot.new.part ≡ part_of (P.stripe_of slot.old.part) (J.events before.now.value ++ C.added change.now) }
    ensures clean { slot.new.prepared ≡ false }
{
    let Slot {
        part,
        seat,
        known,
        prepared,
        ..
    } = slot;
    change.apply_part(part);
    *known = catch_up(word, seat, pen);
    *prepared = false;
}

fn apply_at<'b, P: Part, J: Journal, N: Name, C: Change<P, J>>(
    word: &Word<N>,
    row: &mut Sixteen<Option<MutexGuard<'b, Slot<P, N>>>>,
    pen: &mut Token,
    change: &C,
    before: &Snapshot<J>,
    set: StripeSet,
    place: u8,
)
    requires place { place < 16 }
    requires table { pen.old.table_id ≡ N.table }
    requires pen { IsPen pen.old.me.0 }
    requires all { events_of pen.old.me.0.seen ≡ J.events before.now.value ++ C.added change.now }
    requires fits { C.fits change.now (J.events before.now.value) }
    requires set { (k : ℕ) → k < 16 → has set k ≡ C.touched change.now k }
    requires quiet { (k : ℕ) → k < 16 → C.touched change.now k ≡ false → untouched k (C.added change.now) ≡ true }
    requires row { AllHeld row.old (λ k g. Applying place (C.touched change.now) (J.events before.now.value) (C.added change.now) k (P.stripe_of (mutex_guard_value g).part) (mutex_guard_value g).known (mutex_guard_value g).prepared (P.shares (mutex_guard_value g).part) (C.on_part change.now (mutex_guard_value g).part)) }
    ensures table { pen.new.table_id ≡ N.table }
    ensures pen { IsPen pen.new.me.0 }
    ensures seen { pen.new.me.0.seen ≡ pen.old.me.0.seen }
    ensures slots { pen.new.me.1 ≡ pen.old.me.1 }
    ensures row { AllHeld row.new (λ k g. Applying (place + 1) (C.touched change.now) (J.events before.now.value) (C.added change.now) k (P.stripe_of (mutex_guard_value g).part) (mutex_guard_value g).known (mutex_guard_value g).prepared (P.shares (mutex_guard_value g).part) (C.on_part change.now (mutex_guard_value g).part)) }
    ensures held { SameHeld row.new row.old }
{
    if !set.has(place) {
        return;
    }
    let Some(mut guard) = row.take(usize::from(place)) else {
        return;
    };
    apply_slot(word, &mut guard, pen, change, before);
    row.put(usize::from(place), guard);
}

fn apply_row<'b, P: Part, J: Journal, N: Name, C: Change<P, J>>(
    word: &Word<N>,
    row: &mut Sixteen<Option<MutexGuard<'b, Slot<P, N>>>>,
    pen: &mut Token,
    change: &C,
    before: &Snapshot<J>,
    set: StripeSet,
)
    requires table { pen.old.table_id ≡ N.table }
    requires pen { IsPen pen.old.me.0 }
    requires all { events_of pen.old.me.0.seen ≡ J.events before.now.value ++ C.added change.now }
    requires fits { C.fits change.now (J.events before.now.value) }
    requires set { (k : ℕ) → k < 16 → has set k ≡ C.touched change.now k }
    requires quiet { (k : ℕ) → k < 16 → C.touched change.now k ≡ false → untouched k (C.added change.now) ≡ true }
    requires row { AllHeld row.old (λ k g. Applying 0 (C.touched change.now) (J.events before.now.value) (C.added change.now) k (P.stripe_of (mutex_guard_value g).part) (mutex_guard_value g).known (mutex_guard_value g).prepared (P.shares (mutex_guard_value g).part) (C.on_part change.now (mutex_guard_value g).part)) }
    ensures table { pen.new.table_id ≡ N.table }
    ensures pen { IsPen pen.new.me.0 }
    ensures seen { pen.new.me.0.seen ≡ pen.old.me.0.seen }
    ensures slots { pen.new.me.1 ≡ pen.old.me.1 }
    ensures row { AllHeld row.new (λ k g. Applied (J.events before.now.value ++ C.added change.now) k (P.stripe_of (mutex_guard_value g).part) (mutex_guard_value g).known (mutex_guard_value g).prepared (P.shares (mutex_guard_value g).part)) }
    ensures held { SameHeld row.new row.old }
{
    for place in 0..16u8 {
        apply_at(word, row, pen, change, before, set, place);
    }
    let _places = row.len();
}

/// Sets the stamps of the stripes of the set.
fn stamp_all(stamps: &mut [u64; 16], set: StripeSet, front: u64)
    ensures { (k : ℕ) → k < 16 → slice_index stamps.new k ≡ cond (has set k) front (slice_index stamps.old k) }
{
    for place in 0..16u8 {
        if set.has(place) {
            stamps[usize::from(place)] = front;
        }
    }
}

/// Publishes the change. It takes no memory.
pub(crate) fn publish_all<'b, P: Part, J: Journal, N: Name, C: Change<P, J>>(
    word: &Word<N>,
    row: &mut Sixteen<Option<MutexGuard<'b, Slot<P, N>>>>,
    desk: &mut Desk<J, N>,
    change: &mut C,
    seat: &mut Token,
)
    requires table { seat.old.table_id ≡ N.table }
    requires seat { (seat.old.me.0.pen ≡ false) × (0 < seat.old.me.0.weight) }
    requires fits { C.fits change.old (J.events desk.old.journal) }
    requires row { AllHeld row.old (λ k g. Staged 0 16 (C.touched change.old) desk.old.pen.me.0.seen k (P.stripe_of (mutex_guard_value g).part) (mutex_guard_value g).known (mutex_guard_value g).prepared (P.shares (mutex_guard_value g).part) (C.on_part change.old (mutex_guard_value g).part)) }
    requires journal { C.on_journal change.old desk.old.journal }
    requires room { length (J.events desk.old.journal) + length (C.added change.old) < 2 ^ 64 }
    ensures table { seat.new.table_id ≡ N.table }
    ensures slots { seat.new.me.1 ≡ seat.old.me.1 }
    ensures seen { seat.new.me.0.seen ≡ desk.old.pen.me.0.seen ++ marks (C.mark change.old) (C.added change.old) }
    ensures made { seat.new.me.0.made ≡ seat.old.me.0.made + length (C.added change.old) }
    ensures weight { seat.new.me.0.weight ≡ seat.old.me.0.weight }
    ensures penless { seat.new.me.0.pen ≡ false }
    ensures desk { (desk.new.pen.me.0.seen ≡ desk.old.pen.me.0.seen ++ marks (C.mark change.old) (C.added change.old)) × (J.events desk.new.journal ≡ J.events desk.old.journal ++ C.added change.old) × (desk.new.prepared ≡ false) }
    ensures row { AllHeld row.new (λ k g. Applied (J.events desk.old.journal ++ C.added change.old) k (P.stripe_of (mutex_guard_value g).part) (mutex_guard_value g).known (mutex_guard_value g).prepared (P.shares (mutex_guard_value g).part)) }
    ensures held { SameHeld row.new row.old }
{
    let _places = row.len();
    let set = change.touches();
    let count = change.count();
    let before = Snapshot::of(&desk.journal);
    let Desk {
        journal,
        pen,
        stamps,
        prepared,
        ..
    } = desk;
    let front = publish_word(word, seat, pen, change, count);
    apply_row(word, row, pen, change, &before, set);
    stamp_all(stamps, set, front);
    change.apply_journal(journal);
    *prepared = false;
}
