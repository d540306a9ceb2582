//! The locks, and what a caller holds of them. Stripes are locked in rising order and the journal last.
ghost use Rattle.std.specs.Prelude.{◌≡◌, ℕ, ◌+◌, ◌<◌, ◌≤◌, ◌++◌, List, true, false, [], Some, None, is_some, length, drop, nat_lt, slice_index, slice_index_or, option_copied, MatchResult};
ghost use Rattle.std.specs.Sync.Mutex.{mutex_guard_value};
ghost use Rattle.lg_types.specs.declared.records.Event.{Event};
ghost use Rattle.lg_types.specs.Lists.{IsPrefix};
ghost use Rattle.lg_types.specs.Marked.{events_of, marks, open_end};
ghost use Rattle.lg_types.specs.Parts.{part_of};
ghost use Rattle.lg_turns.specs.Stripes.{has};
ghost use Rattle.lg_turns.specs.Rules.{CaughtUp};
ghost use Rattle.lg_turns.specs.Passes.{IsPrepared};
ghost use Rattle.lg_turns.specs.Rows.{AllHeld, mapped, HeldBelow, SameHeld, Stripe};

use crate::parts::{Change, Journal, Part};
use crate::pass::Pass;
use crate::prepare::prepare_all;
use crate::publish::publish_all;
use crate::rows::{is_current, refresh_all};
use crate::sixteen::Sixteen;
use crate::slot::{Desk, Slot};
use crate::stripes::StripeSet;
use crate::word::{Name, Token, Word, catch_up};
use lg_types::NoMemory;
use std::marker::Model;
use std::sync::{Mutex, MutexGuard, Wait};

/// Sixteen parts and one journal, each under a lock of its own, and the word that counts all events.
#[derive(Drop)]
pub struct Turns<P: Part, J: Journal, N: Name> {
    pub(crate) word: Word<N>,
    pub(crate) stripes: Sixteen<Mutex<Slot<P, N>>>,
    pub(crate) desk: Mutex<Desk<J, N>>,
}

/// The stripes that a caller holds, seen as the row of their parts.
pub struct Held<'b, P: Part, J: Journal, N: Name> {
    turns: &'b Turns<P, J, N>,
    guards: Sixteen<Option<MutexGuard<'b, Slot<P, N>>>>,
}

impl<'b, P: Part, J: Journal, N: Name> Model for Held<'b, P, J, N> {
    ghost use Rattle.std.specs.Prelude.{◌≡◌, List, Option, false};
    ghost use Rattle.std.specs.Sync.Mutex.{mutex_guard_value};
    ghost use Rattle.lg_turns.specs.Rows.{AllHeld, mapped};

    ghost Value = { List (Option P) };

    ghost view = { λ h. mapped h.guards (λ g. (mutex_guard_value g).part) };

    ghost invariant = { λ h. AllHeld h.guards (λ k g. (P.stripe_of (mutex_guard_value g).part ≡ k) × ((mutex_guard_value g).prepared ≡ false)) };
}

/// The stripes and the journal that a caller holds. Give them back by `settle` or `release`.
pub struct Met<'b, P: Part, J: Journal, N: Name> {
    pub(crate) turns: &'b Turns<P, J, N>,
    pub(crate) guards: Sixteen<Option<MutexGuard<'b, Slot<P, N>>>>,
    pub(crate) desk: MutexGuard<'b, Desk<J, N>>,
    pub(crate) prepared: bool,
}

impl<'b, P: Part, J: Journal, N: Name> Model for Met<'b, P, J, N> {
    ghost use Rattle.std.specs.Prelude.{◌≡◌, false};
    ghost use Rattle.std.specs.Sync.Mutex.{mutex_guard_value};
    ghost use Rattle.lg_turns.specs.Rows.{AllHeld, mapped, Stripe};
    ghost use Rattle.lg_turns.specs.Passes.{MetOf};

    ghost Value = { MetOf P J };

    ghost view = { λ m. record { parts = mapped m.guards (λ g. (mutex_guard_value g).part); dirty = mapped m.guards (λ g. (mutex_guard_value g).prepared); journal = (mutex_guard_value m.desk).journal; seen = (mutex_guard_value m.desk).pen.me.0.seen; prepared = m.prepared } };

    ghost invariant = { λ m. (m.prepared ≡ false → (mutex_guard_value m.desk).prepared ≡ false) × AllHeld m.guards (λ k g. Stripe m.prepared (mutex_guard_value m.desk).pen.me.0.seen k (P.stripe_of (mutex_guard_value g).part) (mutex_guard_value g).known (mutex_guard_value g).prepared (P.shares (mutex_guard_value g).part)) };
}

/// The stripes that a caller still holds after it gave the journal back, seen as the row of their parts.
pub struct Fixed<'b, P: Part, N: Name> {
    guards: Sixteen<Option<MutexGuard<'b, Slot<P, N>>>>,
}

impl<'b, P: Part, N: Name> Model for Fixed<'b, P, N> {
    ghost use Rattle.std.specs.Prelude.{List, Option};
    ghost use Rattle.std.specs.Sync.Mutex.{mutex_guard_value};
    ghost use Rattle.lg_turns.specs.Rows.{mapped};

    ghost Value = { List (Option P) };

    ghost view = { λ h. mapped h.guards (λ g. (mutex_guard_value g).part) };
}

fn part_at<'a, 'b, P: Part, N: Name>(
    row: &'a Sixteen<Option<MutexGuard<'b, Slot<P, N>>>>,
    stripe: u8,
) -> Option<&'a P>
    ensures { option_copied result ≡ slice_index_or (mapped row.now (λ g. (mutex_guard_value g).part)) stripe None }
{
    if usize::from(stripe) >= row.len() {
        return None;
    }
    match row.get(usize::from(stripe)) {
        Some(guard) => Some(&guard.part),
        None => None,
    }
}

fn lock_stripe<'b, P: Part, J: Journal, N: Name, R: Wait>(
    rt: &R,
    turns: &'b Turns<P, J, N>,
    place: usize,
) -> MutexGuard<'b, Slot<P, N>>
    requires { place < 16 }
    ensures stripe { P.stripe_of (mutex_guard_value result).part ≡ place }
    ensures unprepared { (mutex_guard_value result).prepared ≡ false }
{
    for _ in rt.forever() {
        let guard = turns.stripes.get(place).lock(rt);
        if usize::from(guard.part.stripe()) == place && !guard.prepared {
            return guard;
        }
    }
    unreachable!()
}

fn take_at<'b, P: Part, J: Journal, N: Name, R: Wait>(
    rt: &R,
    turns: &'b Turns<P, J, N>,
    row: &mut Sixteen<Option<MutexGuard<'b, Slot<P, N>>>>,
    set: StripeSet,
    place: u8,
)
    requires place { place < 16 }
    requires row { AllHeld row.old (λ k g. (P.stripe_of (mutex_guard_value g).part ≡ k) × ((mutex_guard_value g).prepared ≡ false)) }
    requires held { HeldBelow (has set) place row.old }
    requires length { length row.old ≡ 16 }
    ensures row { AllHeld row.new (λ k g. (P.stripe_of (mutex_guard_value g).part ≡ k) × ((mutex_guard_value g).prepared ≡ false)) }
    ensures held { HeldBelow (has set) (place + 1) row.new }
    ensures length { length row.new ≡ 16 }
{
    if set.has(place) {
        let guard = lock_stripe(rt, turns, usize::from(place));
        row.put(usize::from(place), guard);
    }
}

fn take_all<'b, P: Part, J: Journal, N: Name, R: Wait>(
    rt: &R,
    turns: &'b Turns<P, J, N>,
    set: StripeSet,
) -> Sixteen<Option<MutexGuard<'b, Slot<P, N>>>>
    ensures row { AllHeld result (λ k g. (P.stripe_of (mutex_guard_value g).part ≡ k) × ((mutex_guard_value g).prepared ≡ false)) }
    ensures held { HeldBelow (has set) 16 result }
{
    let mut row = Sixteen::none();
    for place in 0..16u8 {
        take_at(rt, turns, &mut row, set, place);
    }
    row
}

/// Locks the journal, where no held stripe is older than its stamp.
fn lock_desk<'b, P: Part, J: Journal, N: Name, R: Wait>(
    rt: &R,
    turns: &'b Turns<P, J, N>,
    row: &Sixteen<Option<MutexGuard<'b, Slot<P, N>>>>,
) -> MutexGuard<'b, Desk<J, N>>
    ensures unprepared { (mutex_guard_value result).prepared ≡ false }
    ensures current { AllHeld row.now (λ k g. slice_index (mutex_guard_value result).stamps k ≤ (mutex_guard_value g).known) }
{
    for _ in rt.forever() {
        let desk = turns.desk.lock(rt);
        if !desk.prepared && is_current(row, &desk.stamps) {
            return desk;
        }
    }
    unreachable!()
}

/// Brings the held stripes and a caller's seat up to all events.
fn meet_desk<'b, P: Part, J: Journal, N: Name>(
    word: &Word<N>,
    row: &mut Sixteen<Option<MutexGuard<'b, Slot<P, N>>>>,
    desk: &mut Desk<J, N>,
    seat: &mut Token,
)
    requires table { seat.old.table_id ≡ N.table }
    requires seat { seat.old.me.0.pen ≡ false }
    requires current { AllHeld row.old (λ k g. slice_index desk.old.stamps k ≤ (mutex_guard_value g).known) }
    requires row { AllHeld row.old (λ k g. (P.stripe_of (mutex_guard_value g).part ≡ k) × ((mutex_guard_value g).prepared ≡ false)) }
    ensures table { seat.new.table_id ≡ N.table }
    ensures slots { seat.new.me.1 ≡ seat.old.me.1 }
    ensures seat { CaughtUp seat.old.me.0 seat.new.me.0 desk.old.pen.me.0.seen }
    ensures ends { open_end desk.old.pen.me.0.seen ≡ 0 }
    ensures desk { (desk.new.journal ≡ desk.old.journal) × (desk.new.prepared ≡ desk.old.prepared) × (desk.new.pen.me.0.seen ≡ desk.old.pen.me.0.seen) }
    ensures row { AllHeld row.new (λ k g. Stripe false desk.old.pen.me.0.seen k (P.stripe_of (mutex_guard_value g).part) (mutex_guard_value g).known (mutex_guard_value g).prepared (P.shares (mutex_guard_value g).part)) }
    ensures parts { mapped row.new (λ g. (mutex_guard_value g).part) ≡ mapped row.old (λ g. (mutex_guard_value g).part) }
{
    let Desk { pen, stamps, .. } = desk;
    refresh_all(word, row, pen, stamps);
    catch_up(word, seat, pen);
}

impl<P: Part, J: Journal, N: Name> Turns<P, J, N> {
    /// Locks the stripes of the set, in rising order. It waits, and can't be refused.
    pub fn take<R: Wait>(&self, rt: &R, set: StripeSet) -> Held<'_, P, J, N>
        ensures held { (k : ℕ) → k < 16 → is_some (slice_index_or result k None) ≡ has set k }
        ensures stripes { AllHeld result (λ k p. P.stripe_of p ≡ k) }
    {
        let guards = take_all(rt, self, set);
        Held {
            turns: self,
            guards,
        }
    }
}

impl<'b, P: Part, J: Journal, N: Name> Held<'b, P, J, N> {
    /// The part of the stripe, and none where the stripe isn't held.
    pub fn part(&self, stripe: u8) -> Option<&P>
        ensures { option_copied result ≡ slice_index_or self.now stripe None }
    {
        part_at(&self.guards, stripe)
    }

    /// Locks the journal. From then on the pass has seen all events, and each held part is its part of them.
    pub fn meet<R: Wait>(self, rt: &R, pass: &mut Pass) -> Met<'b, P, J, N>
        requires { pass.old.table ≡ N.table }
        ensures pass { (pass.new.table ≡ N.table) × (pass.new.made ≡ pass.old.made) × (pass.new.weight ≡ pass.old.weight) }
        ensures seen { IsPrefix pass.old.seen pass.new.seen × (open_end pass.new.seen ≡ 0) × (result.seen ≡ pass.new.seen) }
        ensures parts { (result.parts ≡ self.entry) × (result.prepared ≡ false) × AllHeld result.dirty (λ k b. b ≡ false) }
        ensures journal { J.events result.journal ≡ events_of result.seen }
        ensures shares { AllHeld result.parts (λ k p. P.shares p ≡ part_of k (events_of result.seen)) }
    {
        let Held { turns, mut guards } = self;
        let mut desk = lock_desk(rt, turns, &guards);
        meet_desk(&turns.word, &mut guards, &mut desk, &mut pass.seat);
        Met {
            turns,
            guards,
            desk,
            prepared: false,
        }
    }
}

impl<'b, P: Part, J: Journal, N: Name> Met<'b, P, J, N> {
    /// The number of all events.
    pub fn front(&self) -> u64
        ensures { result ≡ length self.now.seen }
    {
        self.desk.journal.len()
    }

    /// The part of the stripe, and none where the stripe isn't held.
    pub fn part(&self, stripe: u8) -> Option<&P>
        ensures { option_copied result ≡ slice_index_or self.now.parts stripe None }
    {
        part_at(&self.guards, stripe)
    }

    pub fn journal(&self) -> &J
        ensures { result.now ≡ self.now.journal }
    {
        &self.desk.journal
    }

    /// Prepares a change that fits all events. Where memory is wanting, what was prepared is forgotten.
    pub fn prepare<C: Change<P, J>>(&mut self, change: &mut C) -> Result<(), NoMemory>
        requires free { self.old.prepared ≡ false }
        requires held { (k : ℕ) → k < 16 → C.touched change.old k ≡ true → is_some (slice_index_or self.old.parts k None) ≡ true }
        requires fits { C.fits change.old (J.events self.old.journal) }
        ensures same { (C.added change.new ≡ C.added change.old) × (C.mark change.new ≡ C.mark change.old) × (C.touched change.new ≡ C.touched change.old) }
        ensures fits { (es : List Event) → C.fits change.old es → C.fits change.new es }
        ensures seen { (self.new.seen ≡ self.old.seen) × (J.events self.new.journal ≡ J.events self.old.journal) }
        ensures held { SameHeld self.new.parts self.old.parts }
        ensures stripes { AllHeld self.new.parts (λ k p. P.stripe_of p ≡ k) }
        ensures shares { AllHeld self.new.parts (λ k p. P.shares p ≡ part_of k (events_of self.new.seen)) }
        ensures done { MatchResult result (λ _. (self.new.prepared ≡ true) × IsPrepared (C.touched change.new) (C.on_part change.new) (C.on_journal change.new) (length (J.events self.new.journal)) (length (C.added change.new)) self.new) (λ _. self.new.prepared ≡ false) }
    {
        match prepare_all(&mut self.guards, &mut self.desk, change) {
            Ok(()) => {
                self.prepared = true;
                Ok(())
            }
            Err(e) => Err(e),
        }
    }

    /// Publishes the prepared change: all have its events from then on, and the pass has seen and made them. It takes no memory.
    pub fn publish<C: Change<P, J> + Drop>(&mut self, change: C, pass: &mut Pass)
        requires pass { pass.old.table ≡ N.table }
        requires fits { C.fits change (J.events self.old.journal) }
        requires prepared { (self.old.prepared ≡ true) × IsPrepared (C.touched change) (C.on_part change) (C.on_journal change) (length (J.events self.old.journal)) (length (C.added change)) self.old }
        ensures pass { (pass.new.table ≡ N.table) × (pass.new.seen ≡ self.old.seen ++ marks (C.mark change) (C.added change)) × (pass.new.made ≡ pass.old.made + length (C.added change)) × (pass.new.weight ≡ pass.old.weight) }
        ensures met { (self.new.seen ≡ pass.new.seen) × (J.events self.new.journal ≡ J.events self.old.journal ++ C.added change) × (self.new.prepared ≡ false) }
        ensures held { SameHeld self.new.parts self.old.parts }
        ensures stripes { AllHeld self.new.parts (λ k p. P.stripe_of p ≡ k) }
        ensures parts { AllHeld self.new.parts (λ k p. P.shares p ≡ part_of k (events_of self.new.seen)) }
    {
        let _places = self.guards.len();
        let mut change = change;
        publish_all(
            &self.turns.word,
            &mut self.guards,
            &mut self.desk,
            &mut change,
            &mut pass.seat,
        );
        self.prepared = false;
    }

    /// Gives the journal back, and keeps the stripes.
    pub fn settle(self) -> Fixed<'b, P, N>
        requires { self.prepared ≡ false }
        ensures { result ≡ self.entry.parts }
    {
        let Met {
            turns: _,
            guards,
            desk,
            prepared: _,
        } = self;
        drop(desk);
        Fixed { guards }
    }

    /// Gives all back.
    pub fn release(self)
        requires { self.prepared ≡ false }
    {
        let Met {
            turns: _,
            guards,
            desk,
            prepared: _,
        } = self;
        drop(desk);
        drop(guards);
    }
}

impl<'b, P: Part, N: Name> Fixed<'b, P, N> {
    /// The part of the stripe, and none where the stripe isn't held.
    pub fn part(&self, stripe: u8) -> Option<&P>
        ensures { option_copied result ≡ slice_index_or self.now stripe None }
    {
        part_at(&self.guards, stripe)
    }

    /// Gives all back.
    pub fn release(self) {
        let Fixed { guards } = self;
        drop(guards);
    }
}
