//! The postings of a transaction.

ghost use Rattle.std.specs.Prelude.{◌≡◌, ◌<◌, ◌++◌, [], ◌∷◌, length, OnOk, OnErr, IfOk, MatchOption, slice_get};
ghost use Rattle.std.specs.Option.{option_copied};

use crate::records::Posting;
use lg_base::NoMemory;
use lg_containers::{Duplicate, copy_items};
use std::alloc::Global;
use std::marker::Model;

/// The postings of a transaction, at least one.
#[derive(Drop)]
pub struct Postings {
    items: Vec<Posting>,
}

impl Model for Postings {
    ghost use Rattle.std.specs.Prelude.{List, ◌<◌, length};
    ghost use Rattle.lg_types.specs.declared.records.Posting.{Posting};

    ghost Value = { List Posting };

    ghost view = { λ p. p.items.items };

    ghost invariant = { λ p. 0 < length p.items.items };
}

impl Postings {
    /// The list of this one posting.
    pub fn of(alloc: Global, first: Posting) -> Result<Postings, NoMemory>
        ensures { IfOk result (λ p. p ≡ first ∷ []) }
    {
        let mut items = Vec::new(alloc);
        items.push(first)?;
        Ok(Postings { items })
    }

    /// The postings of the vector, and none exactly where it has none.
    pub fn from_vec(items: Vec<Posting>) -> Option<Postings>
        ensures { MatchOption result (items.items ≡ []) (λ p. p ≡ items.items) }
    {
        if items.is_empty() {
            None
        } else {
            Some(Postings { items })
        }
    }

    /// How many postings there are.
    pub fn len(&self) -> usize
        ensures len { result ≡ length self.now }
        ensures some { 0 < result }
    {
        self.items.len()
    }

    /// The posting at the place, counted from 0, and `None` exactly past the end.
    pub fn get(&self, place: usize) -> Option<&Posting>
        ensures { option_copied result ≡ slice_get self.now place }
    {
        self.items.get(place)
    }

    /// The postings.
    pub fn as_slice(&self) -> &[Posting]
        ensures value { result.now ≡ self.now }
        ensures some { 0 < length result.now }
    {
        self.items.as_slice()
    }

    /// Appends the posting.
    pub fn push(&mut self, item: Posting) -> Result<(), NoMemory>
        ensures ok { OnOk result (self.new ≡ self.old ++ item ∷ []) }
        ensures err { OnErr result (self.new ≡ self.old) }
    {
        self.items.push(item)?;
        Ok(())
    }
}

impl Duplicate for Postings {
    fn copy(&self, alloc: Global) -> Result<Postings, NoMemory> {
        Ok(Postings {
            items: copy_items(alloc, self.items.as_slice())?,
        })
    }
}
