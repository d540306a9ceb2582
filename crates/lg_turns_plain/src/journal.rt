//! A journal that is the list of all events.

ghost use Rattle.std.specs.Prelude.{◌≡◌, ◌≤◌, true, [], ◌∷◌, vec_len, IfOk};

use lg_turns::{Journal, NoMemory};
use lg_types::Event;
use std::alloc::Global;

/// The events that were applied, and after them at most one that is prepared.
#[derive(Drop)]
pub struct PlainJournal {
    pub(crate) events: Vec<Event>,
    /// How many were applied.
    pub(crate) applied: usize,
    pub ghost within: { applied ≤ vec_len events },
}

impl Journal for PlainJournal {
    ghost use Rattle.std.specs.Prelude.{length, take, nat_eq};

    ghost events = { λ j. take j.applied j.events.items };

    ghost clean = { λ j. nat_eq (length j.events.items) j.applied };

    fn len(&self) -> u64 {
        self.applied as u64
    }
}

impl PlainJournal {
    /// The journal of one event.
    pub fn of(alloc: Global, event: Event) -> Result<PlainJournal, NoMemory>
        ensures { IfOk result (λ j. (⟦<PlainJournal as Journal>⟧.events j ≡ event ∷ []) × (⟦<PlainJournal as Journal>⟧.clean j ≡ true)) }
    {
        let mut events = Vec::new(alloc);
        events.push(event)?;
        Ok(PlainJournal { events, applied: 1 })
    }
}
