//! Places of changes.

ghost use Rattle.std.specs.Prelude.{◌≡◌, [], ◌∷◌, ◌++◌, filter, nat_lt, OnOk, OnErr};

use lg_containers::NoMemory;
use std::alloc::Global;
use std::marker::Model;

/// A list of places.
#[derive(Drop)]
pub(crate) struct Places {
    items: Vec<usize>,
}

impl Model for Places {
    ghost use Rattle.std.specs.Prelude.{ℕ, List};

    ghost Value = { List ℕ };

    ghost view = { λ p. p.items.items };
}

impl Places {
    /// The list without places.
    pub(crate) fn new(alloc: Global) -> Places
        ensures { result ≡ [] }
    {
        Places {
            items: Vec::new(alloc),
        }
    }

    pub(crate) fn as_slice(&self) -> &[usize]
        ensures { result.now ≡ self.now }
    {
        self.items.as_slice()
    }

    /// Appends the place.
    pub(crate) fn push(&mut self, place: usize) -> Result<(), NoMemory>
        ensures ok { OnOk result (self.new ≡ self.old ++ place ∷ []) }
        ensures err { OnErr result (self.new ≡ self.old) }
    {
        self.items.push(place)?;
        Ok(())
    }

    /// Keeps the places below the limit.
    pub(crate) fn cut(&mut self, limit: usize)
        ensures { self.new ≡ filter (λ place. nat_lt place limit) self.old }
    {
        self.items.retain(|place| *place < limit);
    }
}
