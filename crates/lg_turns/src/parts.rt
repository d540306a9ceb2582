//! What lies under the locks, and what changes it.
ghost use Rattle.std.specs.Prelude.{◌≡◌, ℕ, ◌+◌, ◌^◌, ◌<◌, ◌++◌, Bool, true, false, List, length, IfOk, MatchResult};
ghost use Rattle.lg_types.specs.declared.records.Event.{Event};
ghost use Rattle.lg_types.specs.declared.marks.Mark.{Mark};
ghost use Rattle.lg_types.specs.Parts.{Share, part_of, untouched};
ghost use Rattle.lg_turns.specs.Stripes.{has};

use crate::stripes::StripeSet;
use lg_types::NoMemory;

/// What one stripe holds.
pub trait Part {
    /// What the events say of the resources of the stripe.
    ghost shares: { Self → List Share };

    ghost stripe_of: { Self → ℕ };

    /// Whether no change is prepared on it.
    ghost clean: { Self → Bool };

    fn stripe(&self) -> u8
        ensures { result ≡ stripe_of self.now };
}

/// The list of all events.
pub trait Journal {
    ghost events: { Self → List Event };

    /// Whether no change is prepared on it.
    ghost clean: { Self → Bool };

    /// How many events it has.
    fn len(&self) -> u64
        ensures { result ≡ length (events self.now) };
}

/// Events that one call adds. The prepare calls take all memory, and what they prepared is applied or forgotten by calls that take none.
pub trait Change<P: Part, J: Journal> {
    /// The events that it adds.
    ghost added: { Self → List Event };

    /// The call whose events they are.
    ghost mark: { Self → Mark };

    /// The lists of events that it may be added to.
    ghost fits: { Self → List Event → Type 0 };

    /// The stripes of the resources of its events.
    ghost touched: { Self → ℕ → Bool };

    /// Whether it is prepared on the part.
    ghost on_part: { Self → P → Type 0 };

    /// Whether it is prepared on the journal.
    ghost on_journal: { Self → J → Type 0 };

    /// How many events it adds.
    fn count(&self) -> u64
        ensures { result ≡ length (added self.now) };

    fn touches(&self) -> StripeSet
        ensures is { (k : ℕ) → k < 16 → has result k ≡ touched self.now k }
        ensures all { (k : ℕ) → k < 16 → touched self.now k ≡ false → untouched k (added self.now) ≡ true };

    fn prepare_part(&mut self, part: &mut P) -> Result<(), NoMemory>
        requires clean { P.clean part.old ≡ true }
        requires fits { (es : List Event) × fits self.old es × (P.shares part.old ≡ part_of (P.stripe_of part.old) es) }
        ensures same { (added self.new ≡ added self.old) × (mark self.new ≡ mark self.old) × (touched self.new ≡ touched self.old) }
        ensures fits { (es : List Event) → fits self.old es → fits self.new es }
        ensures part { (P.shares part.new ≡ P.shares part.old) × (P.stripe_of part.new ≡ P.stripe_of part.old) }
        ensures others { (q : P) → on_part self.old q → on_part self.new q }
        ensures prepared { MatchResult result (λ _. on_part self.new part.new) (λ _. P.clean part.new ≡ true) };

    fn prepare_journal(&mut self, journal: &mut J) -> Result<(), NoMemory>
        requires clean { J.clean journal.old ≡ true }
        requires fits { fits self.old (J.events journal.old) }
        ensures same { (added self.new ≡ added self.old) × (mark self.new ≡ mark self.old) × (touched self.new ≡ touched self.old) }
        ensures fits { (es : List Event) → fits self.old es → fits self.new es }
        ensures journal { J.events journal.new ≡ J.events journal.old }
        ensures others { (q : P) → on_part self.old q → on_part self.new q }
        ensures prepared { MatchResult result (λ _. on_journal self.new journal.new) (λ _. J.clean journal.new ≡ true) }
        ensures room { IfOk result (λ _. length (J.events journal.new) + length (added self.new) < 2 ^ 64) };

    fn forget_part(&self, part: &mut P)
        requires { on_part self.now part.old }
        ensures part { (P.shares part.new ≡ P.shares part.old) × (P.stripe_of part.new ≡ P.stripe_of part.old) }
        ensures clean { P.clean part.new ≡ true };

    fn forget_journal(&self, journal: &mut J)
        requires { on_journal self.now journal.old }
        ensures journal { J.events journal.new ≡ J.events journal.old }
        ensures clean { J.clean journal.new ≡ true };

    fn apply_part(&self, part: &mut P)
        requires { on_part self.now part.old }
        ensures shares { (es : List Event) → fits self.now es → P.shares part.old ≡ part_of (P.stripe_of part.old) es → P.shares part.new ≡ part_of (P.stripe_of part.old) (es ++ added self.now) }
        ensures stripe { P.stripe_of part.new ≡ P.stripe_of part.old }
        ensures clean { P.clean part.new ≡ true };

    fn apply_journal(&mut self, journal: &mut J)
        requires { on_journal self.old journal.old }
        ensures events { J.events journal.new ≡ J.events journal.old ++ added self.old }
        ensures clean { J.clean journal.new ≡ true };
}
