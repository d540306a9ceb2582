//! A change of one event.

ghost use Rattle.std.specs.Prelude.{◌≡◌, ℕ, ◌<◌, false, true, ◌∷◌, [], length};
ghost use Rattle.lg_types.specs.Parts.{untouched};
ghost use Rattle.lg_turns.specs.Stripes.{has};

use crate::journal::PlainJournal;
use crate::part::{Kept, PlainPart};
use lg_turns::{Change, Mark, NoMemory, StripeSet};
use lg_types::{Duplicate, Event};
use std::alloc::Global;

/// One event that a call adds at a place.
#[derive(Drop)]
pub struct Addition {
    pub alloc: Global,
    pub event: Event,
    /// How many events there are before it.
    pub place: u64,
    pub mark: Mark,
    /// Each stripe that the event touches.
    pub stripes: StripeSet,
    pub ghost all: { (k : ℕ) → k < 16 → has stripes k ≡ false → untouched k (event ∷ []) ≡ true },
}

impl Change<PlainPart, PlainJournal> for Addition {
    ghost use Rattle.std.specs.Prelude.{◌≡◌, ◌∷◌, ◌++◌, [], length, take};
    ghost use Rattle.lg_turns.specs.Stripes.{has};

    ghost added = { λ c. c.event ∷ [] };

    ghost mark = { λ c. c.mark };

    ghost fits = { λ c es. length es ≡ c.place };

    ghost touched = { λ c. has c.stripes };

    ghost on_part = { λ c p. p.kept.items ≡ take p.applied p.kept.items ++ record { place = c.place; event = c.event } ∷ [] };

    ghost on_journal = { λ c j. j.events.items ≡ take j.applied j.events.items ++ c.event ∷ [] };

    fn count(&self) -> u64 {
        1
    }

    fn touches(&self) -> StripeSet {
        self.stripes
    }

    fn prepare_part(&mut self, part: &mut PlainPart) -> Result<(), NoMemory> {
        let event = self.event.copy(self.alloc)?;
        part.kept.push(Kept {
            place: self.place,
            event,
        })?;
        Ok(())
    }

    fn prepare_journal(&mut self, journal: &mut PlainJournal) -> Result<(), NoMemory> {
        let event = self.event.copy(self.alloc)?;
        journal.events.push(event)?;
        Ok(())
    }

    fn forget_part(&self, part: &mut PlainPart) {
        part.kept.truncate(part.applied);
    }

    fn forget_journal(&self, journal: &mut PlainJournal) {
        journal.events.truncate(journal.applied);
    }

    fn apply_part(&self, part: &mut PlainPart) {
        part.applied = part.kept.len();
    }

    fn apply_journal(&mut self, journal: &mut PlainJournal) {
        journal.applied = journal.events.len();
    }
}
