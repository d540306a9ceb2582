//! The stripes that a caller holds, looked at and brought up to all events in rising order.
ghost use Rattle.std.specs.Prelude.{◌≡◌, ℕ, ◌+◌, ◌<◌, ◌≤◌, true, false, Some, length, drop, slice_get, slice_index};
ghost use Rattle.std.specs.Sync.Mutex.{mutex_guard_value};
ghost use Rattle.lg_types.specs.Marked.{events_of};
ghost use Rattle.lg_types.specs.Parts.{part_of, untouched};
ghost use Rattle.lg_turns.specs.Rules.{IsPen};
ghost use Rattle.lg_turns.specs.Rows.{AllHeld, mapped, Ready, Stripe, Refreshing};

use crate::parts::Part;
use crate::sixteen::Sixteen;
use crate::slot::{Slot, refresh_slot};
use crate::word::{Name, Token, Word};
use std::sync::MutexGuard;

/// Whether a stripe, where it is held, isn't older than its stamp.
fn is_current_at<'b, P: Part, N: Name>(
    row: &Sixteen<Option<MutexGuard<'b, Slot<P, N>>>>,
    stamps: &[u64; 16],
    place: usize,
) -> bool
    requires { place < 16 }
    ensures current { result ≡ true → (g : _) → slice_get row.now place ≡ Some (Some g) → slice_index stamps.now place ≤ (mutex_guard_value g).known }
    ensures only { ((g : _) → slice_get row.now place ≡ Some (Some g) → slice_index stamps.now place ≤ (mutex_guard_value g).known) → result ≡ true }
{
    match row.get(place) {
        Some(guard) => stamps[place] <= guard.known,
        None => true,
    }
}

/// Whether no held stripe is older than its stamp.
pub(crate) fn is_current<'b, P: Part, N: Name>(
    row: &Sixteen<Option<MutexGuard<'b, Slot<P, N>>>>,
    stamps: &[u64; 16],
) -> bool
    ensures current { result ≡ true → AllHeld row.now (λ k g. slice_index stamps.now k ≤ (mutex_guard_value g).known) }
    ensures only { AllHeld row.now (λ k g. slice_index stamps.now k ≤ (mutex_guard_value g).known) → result ≡ true }
{
    for place in 0..row.len() {
        if !is_current_at(row, stamps, place) {
            return false;
        }
    }
    true
}

fn refresh_at<'b, P: Part, N: Name>(
    word: &Word<N>,
    row: &mut Sixteen<Option<MutexGuard<'b, Slot<P, N>>>>,
    pen: &mut Token,
    stamps: &[u64; 16],
    place: usize,
)
    requires place { place < 16 }
    requires table { pen.old.table_id ≡ N.table }
    requires pen { IsPen pen.old.me.0 }
    requires quiet { (s : ℕ) → s < 16 → untouched s (drop (slice_index stamps.now s) (events_of pen.old.me.0.seen)) ≡ true }
    requires row { AllHeld row.old (λ k g. Refreshing place pen.old.me.0.seen k (P.stripe_of (mutex_guard_value g).part) (mutex_guard_value g).prepared (slice_index stamps.now k) (mutex_guard_value g).known (P.shares (mutex_guard_value g).part)) }
    ensures table { pen.new.table_id ≡ N.table }
    ensures pen { IsPen pen.new.me.0 }
    ensures seen { pen.new.me.0.seen ≡ pen.old.me.0.seen }
    ensures slots { pen.new.me.1 ≡ pen.old.me.1 }
    ensures row { AllHeld row.new (λ k g. Refreshing (place + 1) pen.old.me.0.seen k (P.stripe_of (mutex_guard_value g).part) (mutex_guard_value g).prepared (slice_index stamps.now k) (mutex_guard_value g).known (P.shares (mutex_guard_value g).part)) }
    ensures parts { mapped row.new (λ g. (mutex_guard_value g).part) ≡ mapped row.old (λ g. (mutex_guard_value g).part) }
    ensures length { length row.new ≡ 16 }
{
    let Some(mut guard) = row.take(place) else {
        return;
    };
    refresh_slot(word, &mut guard, pen, stamps[place]);
    row.put(place, guard);
}

/// Brings all held stripes up to all events.
pub(crate) fn refresh_all<'b, P: Part, N: Name>(
    word: &Word<N>,
    row: &mut Sixteen<Option<MutexGuard<'b, Slot<P, N>>>>,
    pen: &mut Token,
    stamps: &[u64; 16],
)
    requires table { pen.old.table_id ≡ N.table }
    requires pen { IsPen pen.old.me.0 }
    requires quiet { (s : ℕ) → s < 16 → untouched s (drop (slice_index stamps.now s) (events_of pen.old.me.0.seen)) ≡ true }
    requires row { AllHeld row.old (λ k g. Ready k (P.stripe_of (mutex_guard_value g).part) (mutex_guard_value g).prepared (slice_index stamps.now k) (mutex_guard_value g).known) }
    ensures table { pen.new.table_id ≡ N.table }
    ensures pen { IsPen pen.new.me.0 }
    ensures seen { pen.new.me.0.seen ≡ pen.old.me.0.seen }
    ensures slots { pen.new.me.1 ≡ pen.old.me.1 }
    ensures row { AllHeld row.new (λ k g. Stripe false pen.old.me.0.seen k (P.stripe_of (mutex_guard_value g).part) (mutex_guard_value g).known (mutex_guard_value g).prepared (P.shares (mutex_guard_value g).part)) }
    ensures parts { mapped row.new (λ g. (mutex_guard_value g).part) ≡ mapped row.old (λ g. (mutex_guard_value g).part) }
{
    for place in 0..row.len() {
        refresh_at(word, row, pen, stamps, place);
    }
}
