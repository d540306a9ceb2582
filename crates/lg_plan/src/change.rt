//! A plan as a change of shards and book.

ghost use Rattle.std.specs.Prelude.{◌≡◌};

use crate::booking::{add_to_book, prepare_on_book};
use crate::plan::Plan;
use crate::shards::{apply_to_shard, prepare_on_shard};
use lg_book::Book;
use lg_shard::Shard;
use lg_turns::{Change, StripeSet};
use lg_types::NoMemory;

impl Change<Shard, Book> for Plan {
    ghost use Rattle.std.specs.Prelude.{◌≡◌};
    ghost use Rattle.lg_plan.specs.Events.{any_touches, own_events};
    ghost use Rattle.lg_plan.specs.Plans.{Fits};

    ghost added = { λ p. p.events };

    ghost mark = { λ p. p.mark };

    ghost fits = { Fits };

    ghost touched = { λ p. any_touches p.events };

    ghost on_part = { λ p s. s.prepared ≡ own_events s.stripe p.place p.events };

    ghost on_journal = { λ p b. b.prepared ≡ p.events };

    fn count(&self) -> u64 {
        self.steps.len() as u64
    }

    fn touches(&self) -> StripeSet {
        self.stripes
    }

    fn prepare_part(&mut self, part: &mut Shard) -> Result<(), NoMemory> {
        prepare_on_shard(&self.steps, self.place, part)
    }

    fn prepare_journal(&mut self, journal: &mut Book) -> Result<(), NoMemory> {
        prepare_on_book(&self.steps, journal)
    }

    fn forget_part(&self, part: &mut Shard) {
        part.forget();
    }

    fn forget_journal(&self, journal: &mut Book) {
        journal.forget();
    }

    fn apply_part(&self, part: &mut Shard) {
        apply_to_shard(&self.steps, self.place, part);
    }

    fn apply_journal(&mut self, journal: &mut Book) {
        let steps = self.take_steps();
        add_to_book(steps, journal);
    }
}
