//! The elements of a list of writes.

ghost use Rattle.std.specs.Prelude.{◌≡◌, ◌<◌, ◌≤◌, ◌++◌, [], ◌∷◌, length, OnOk, OnErr, slice_get};
ghost use Rattle.std.specs.Option.{option_copied};

use crate::calls::Element;
use lg_base::NoMemory;
use lg_containers::{Duplicate, copy_items};
use std::alloc::Global;
use std::marker::Model;

/// The most elements that a list of writes has.
pub const MOST_ELEMENTS: usize = 1000;

/// The elements of a list of writes, at most 1,000.
#[derive(Drop)]
pub struct Elements {
    items: Vec<Element>,
}

impl Model for Elements {
    ghost use Rattle.std.specs.Prelude.{List, ◌≤◌, length};
    ghost use Rattle.lg_types.specs.declared.calls.Element.{Element};

    ghost Value = { List Element };

    ghost view = { λ e. e.items.items };

    ghost invariant = { λ e. length e.items.items ≤ 1000 };
}

impl Elements {
    /// The list without elements.
    pub fn new(alloc: Global) -> Elements
        ensures { result ≡ [] }
    {
        Elements {
            items: Vec::new(alloc),
        }
    }

    /// How many elements there are.
    pub fn len(&self) -> usize
        ensures len { result ≡ length self.now }
        ensures most { result ≤ 1000 }
    {
        self.items.len()
    }

    /// The element at the place, counted from 0, and `None` exactly past the end.
    pub fn get(&self, place: usize) -> Option<&Element>
        ensures { option_copied result ≡ slice_get self.now place }
    {
        self.items.get(place)
    }

    /// The elements.
    pub fn as_slice(&self) -> &[Element]
        ensures value { result.now ≡ self.now }
        ensures most { length result.now ≤ 1000 }
    {
        self.items.as_slice()
    }

    /// Appends the element.
    pub fn push(&mut self, item: Element) -> Result<(), NoMemory>
        requires { length self.old < 1000 }
        ensures ok { OnOk result (self.new ≡ self.old ++ item ∷ []) }
        ensures err { OnErr result (self.new ≡ self.old) }
    {
        self.items.push(item)?;
        Ok(())
    }
}

impl Duplicate for Elements {
    fn copy(&self, alloc: Global) -> Result<Elements, NoMemory> {
        Ok(Elements {
            items: copy_items(alloc, self.items.as_slice())?,
        })
    }
}
