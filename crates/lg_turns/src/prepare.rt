//! A change is prepared on what a caller holds. Where memory is wanting, what was prepared is forgotten.
ghost use Rattle.std.specs.Prelude.{◌≡◌, ℕ, ◌+◌, ◌^◌, ◌<◌, ◌≤◌, List, Bool, true, false, Some, length, slice_get, MatchResult, IfOk};
ghost use Rattle.std.specs.Sync.Mutex.{mutex_guard_value};
ghost use Rattle.lg_types.specs.declared.records.Event.{Event};
ghost use Rattle.lg_types.specs.Marked.{events_of};
ghost use Rattle.lg_types.specs.Parts.{part_of};
ghost use Rattle.lg_turns.specs.Stripes.{has};
ghost use Rattle.lg_turns.specs.Rows.{AllHeld, SameHeld, Staged, Stripe};

use crate::parts::{Change, Journal, Part};
use crate::sixteen::Sixteen;
use crate::slot::{Desk, Slot};
use crate::stripes::StripeSet;
use crate::word::{Name, Token};
use lg_types::NoMemory;
use std::sync::MutexGuard;

fn prepare_slot<P: Part, J: Journal, N: Name, C: Change<P, J>>(
    slot: &mut Slot<P, N>,
    change: &mut C,
) -> Result<(), NoMemory>
    requires clean { slot.old.prepared ≡ false }
    requires fits { (es : List Event) × C.fits change.old es × (P.shares slot.old.part ≡ part_of (P.stripe_of slot.old.part) es) }
    ensures same { (C.added change.new ≡ C.added change.old) × (C.mark change.new ≡ C.mark change.old) × (C.touched change.new ≡ C.touched change.old) }
    ensures fits { (es : List Event) → C.fits change.old es → C.fits change.new es }
    ensures slot { (P.shares slot.new.part ≡ P.shares slot.old.part) × (P.stripe_of slot.new.part ≡ P.stripe_of slot.old.part) × (slot.new.known ≡ slot.old.known) }
    ensures others { (q : P) → C.on_part change.old q → C.on_part change.new q }
    ensures prepared { MatchResult result (λ _. C.on_part change.new slot.new.part × (slot.new.prepared ≡ true)) (λ _. slot.new.prepared ≡ false) }
{
    let Slot { part, prepared, .. } = slot;
    match change.prepare_part(part) {
        Ok(()) => {
            *prepared = true;
            Ok(())
        }
        Err(e) => Err(e),
    }
}

fn forget_slot<P: Part, J: Journal, N: Name, C: Change<P, J>>(slot: &mut Slot<P, N>, change: &C)
    requires { C.on_part change.now slot.old.part }
    ensures slot { (P.shares slot.new.part ≡ P.shares slot.old.part) × (P.stripe_of slot.new.part ≡ P.stripe_of slot.old.part) × (slot.new.known ≡ slot.old.known) }
    ensures forgotten { slot.new.prepared ≡ false }
{
    let Slot { part, prepared, .. } = slot;
    change.forget_part(part);
    *prepared = false;
}

fn prepare_desk<P: Part, J: Journal, N: Name, C: Change<P, J>>(
    desk: &mut Desk<J, N>,
    change: &mut C,
) -> Result<(), NoMemory>
    requires clean { desk.old.prepared ≡ false }
    requires fits { C.fits change.old (J.events desk.old.journal) }
    ensures same { (C.added change.new ≡ C.added change.old) × (C.mark change.new ≡ C.mark change.old) × (C.touched change.new ≡ C.touched change.old) }
    ensures fits { (es : List Event) → C.fits change.old es → C.fits change.new es }
    ensures desk { (J.events desk.new.journal ≡ J.events desk.old.journal) × (desk.new.pen.me.0.seen ≡ desk.old.pen.me.0.seen) }
    ensures others { (q : P) → C.on_part change.old q → C.on_part change.new q }
    ensures prepared { MatchResult result (λ _. C.on_journal change.new desk.new.journal) (λ _. desk.new.prepared ≡ false) }
    ensures room { IfOk result (λ _. length (J.events desk.new.journal) + length (C.added change.new) < 2 ^ 64) }
{
    let Desk {
        journal,
        prepared,
        ..
    } = desk;
    match change.prepare_journal(journal) {
        Ok(()) => {
            *prepared = true;
            Ok(())
        }
        Err(e) => Err(e),
    }
}

fn prepare_at<'b, P: Part, J: Journal, N: Name, C: Change<P, J>>(
    row: &mut Sixteen<Option<MutexGuard<'b, Slot<P, N>>>>,
    pen: &Token,
    change: &mut C,
    set: StripeSet,
    place: u8,
) -> Result<(), NoMemory>
    requires place { place < 16 }
    requires set { (k : ℕ) → k < 16 → has set k ≡ C.touched change.old k }
    requires fits { C.fits change.old (events_of pen.now.me.0.seen) }
    requires row { AllHeld row.old (λ k g. Staged 0 place (C.touched change.old) pen.now.me.0.seen k (P.stripe_of (mutex_guard_value g).part) (mutex_guard_value g).known (mutex_guard_value g).prepared (P.shares (mutex_guard_value g).part) (C.on_part change.old (mutex_guard_value g).part)) }
    ensures same { (C.added change.new ≡ C.added change.old) × (C.mark change.new ≡ C.mark change.old) × (C.touched change.new ≡ C.touched change.old) }
    ensures fits { (es : List Event) → C.fits change.old es → C.fits change.new es }
    ensures row { MatchResult result (λ _. AllHeld row.new (λ k g. Staged 0 (place + 1) (C.touched change.new) pen.now.me.0.seen k (P.stripe_of (mutex_guard_value g).part) (mutex_guard_value g).known (mutex_guard_value g).prepared (P.shares (mutex_guard_value g).part) (C.on_part change.new (mutex_guard_value g).part))) (λ _. AllHeld row.new (λ k g. Staged 0 place (C.touched change.new) pen.now.me.0.seen k (P.stripe_of (mutex_guard_value g).part) (mutex_guard_value g).known (mutex_guard_value g).prepared (P.shares (mutex_guard_value g).part) (C.on_part change.new (mutex_guard_value g).part))) }
    ensures held { SameHeld row.new row.old }
{
    if !set.has(place) {
        return Ok(());
    }
    let Some(mut guard) = row.take(usize::from(place)) else {
        return Ok(());
    };
    let prepared = prepare_slot(&mut guard, change);
    row.put(usize::from(place), guard);
    prepared
}

fn forget_at<'b, P: Part, J: Journal, N: Name, C: Change<P, J>>(
    row: &mut Sixteen<Option<MutexGuard<'b, Slot<P, N>>>>,
    pen: &Token,
    change: &C,
    set: StripeSet,
    place: u8,
    end: u8,
)
    requires place { (place < end) × (end ≤ 16) }
    requires set { (k : ℕ) → k < 16 → has set k ≡ C.touched change.now k }
    requires row { AllHeld row.old (λ k g. Staged place end (C.touched change.now) pen.now.me.0.seen k (P.stripe_of (mutex_guard_value g).part) (mutex_guard_value g).known (mutex_guard_value g).prepared (P.shares (mutex_guard_value g).part) (C.on_part change.now (mutex_guard_value g).part)) }
    ensures row { AllHeld row.new (λ k g. Staged (place + 1) end (C.touched change.now) pen.now.me.0.seen k (P.stripe_of (mutex_guard_value g).part) (mutex_guard_value g).known (mutex_guard_value g).prepared (P.shares (mutex_guard_value g).part) (C.on_part change.now (mutex_guard_value g).part)) }
    ensures held { SameHeld row.new row.old }
{
    if !set.has(place) {
        return;
    }
    let Some(mut guard) = row.take(usize::from(place)) else {
        return;
    };
    forget_slot(&mut guard, change);
    row.put(usize::from(place), guard);
}

/// Forgets what was prepared on the stripes before the end.
fn forget_row<'b, P: Part, J: Journal, N: Name, C: Change<P, J>>(
    row: &mut Sixteen<Option<MutexGuard<'b, Slot<P, N>>>>,
    pen: &Token,
    change: &C,
    set: StripeSet,
    end: u8,
)
    requires end { end ≤ 16 }
    requires set { (k : ℕ) → k < 16 → has set k ≡ C.touched change.now k }
    requires row { AllHeld row.old (λ k g. Staged 0 end (C.touched change.now) pen.now.me.0.seen k (P.stripe_of (mutex_guard_value g).part) (mutex_guard_value g).known (mutex_guard_value g).prepared (P.shares (mutex_guard_value g).part) (C.on_part change.now (mutex_guard_value g).part)) }
    ensures row { AllHeld row.new (λ k g. Stripe false pen.now.me.0.seen k (P.stripe_of (mutex_guard_value g).part) (mutex_guard_value g).known (mutex_guard_value g).prepared (P.shares (mutex_guard_value g).part)) }
    ensures held { SameHeld row.new row.old }
{
    for place in 0..end {
        forget_at(row, pen, change, set, place, end);
    }
}

/// Prepares the change on all held stripes that it touches.
fn prepare_row<'b, P: Part, J: Journal, N: Name, C: Change<P, J>>(
    row: &mut Sixteen<Option<MutexGuard<'b, Slot<P, N>>>>,
    pen: &Token,
    change: &mut C,
    set: StripeSet,
) -> Result<(), NoMemory>
    requires set { (k : ℕ) → k < 16 → has set k ≡ C.touched change.old k }
    requires fits { C.fits change.old (events_of pen.now.me.0.seen) }
    requires row { AllHeld row.old (λ k g. Stripe false pen.now.me.0.seen k (P.stripe_of (mutex_guard_value g).part) (mutex_guard_value g).known (mutex_guard_value g).prepared (P.shares (mutex_guard_value g).part)) }
    ensures same { (C.added change.new ≡ C.added change.old) × (C.mark change.new ≡ C.mark change.old) × (C.touched change.new ≡ C.touched change.old) }
    ensures fits { (es : List Event) → C.fits change.old es → C.fits change.new es }
    ensures row { MatchResult result (λ _. AllHeld row.new (λ k g. Staged 0 16 (C.touched change.new) pen.now.me.0.seen k (P.stripe_of (mutex_guard_value g).part) (mutex_guard_value g).known (mutex_guard_value g).prepared (P.shares (mutex_guard_value g).part) (C.on_part change.new (mutex_guard_value g).part))) (λ _. AllHeld row.new (λ k g. Stripe false pen.now.me.0.seen k (P.stripe_of (mutex_guard_value g).part) (mutex_guard_value g).known (mutex_guard_value g).prepared (P.shares (mutex_guard_value g).part))) }
    ensures held { SameHeld row.new row.old }
    ensures length { IfOk result (λ _. length row.new ≡ 16) }
{
    for place in 0..16u8 {
        match prepare_at(row, pen, change, set, place) {
            Ok(()) => {}
            Err(e) => {
                forget_row(row, pen, change, set, place);
                return Err(e);
            }
        }
    }
    let _places = row.len();
    Ok(())
}

/// Prepares the change on all that is held, the journal last.
pub(crate) fn prepare_all<'b, P: Part, J: Journal, N: Name, C: Change<P, J>>(
    row: &mut Sixteen<Option<MutexGuard<'b, Slot<P, N>>>>,
    desk: &mut Desk<J, N>,
    change: &mut C,
) -> Result<(), NoMemory>
    requires clean { desk.old.prepared ≡ false }
    requires fits { C.fits change.old (J.events desk.old.journal) }
    requires row { AllHeld row.old (λ k g. Stripe false desk.old.pen.me.0.seen k (P.stripe_of (mutex_guard_value g).part) (mutex_guard_value g).known (mutex_guard_value g).prepared (P.shares (mutex_guard_value g).part)) }
    ensures same { (C.added change.new ≡ C.added change.old) × (C.mark change.new ≡ C.mark change.old) × (C.touched change.new ≡ C.touched change.old) }
    ensures fits { (es : List Event) → C.fits change.old es → C.fits change.new es }
    ensures desk { (J.events desk.new.journal ≡ J.events desk.old.journal) × (desk.new.pen.me.0.seen ≡ desk.old.pen.me.0.seen) }
    ensures row { MatchResult result (λ _. AllHeld row.new (λ k g. Staged 0 16 (C.touched change.new) desk.old.pen.me.0.seen k (P.stripe_of (mutex_guard_value g).part) (mutex_guard_value g).known (mutex_guard_value g).prepared (P.shares (mutex_guard_value g).part) (C.on_part change.new (mutex_guard_value g).part))) (λ _. AllHeld row.new (λ k g. Stripe false desk.old.pen.me.0.seen k (P.stripe_of (mutex_guard_value g).part) (mutex_guard_value g).known (mutex_guard_value g).prepared (P.shares (mutex_guard_value g).part))) }
    ensures held { SameHeld row.new row.old }
    ensures journal { MatchResult result (λ _. C.on_journal change.new desk.new.journal × (length (J.events desk.new.journal) + length (C.added change.new) < 2 ^ 64)) (λ _. desk.new.prepared ≡ false) }
    ensures length { IfOk result (λ _. length row.new ≡ 16) }
{
    let set = change.touches();
    match prepare_row(row, &desk.pen, change, set) {
        Ok(()) => {}
        Err(e) => return Err(e),
    }
    match prepare_desk(desk, change) {
        Ok(()) => Ok(()),
        Err(e) => {
            forget_row(row, &desk.pen, change, set, 16);
            Err(e)
        }
    }
}
