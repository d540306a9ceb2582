//! What the elements of a list come to, one after the other.

ghost use Rattle.std.specs.Prelude.{◌≡◌};
ghost use Rattle.lg_bulk.specs.Gathering.{nothing_gathered};

use lg_book::FirstVolumes;
use lg_containers::List;
use lg_types::Entries;
use lg_views::{BulkItem, BulkList};
use std::alloc::Global;

/// What the elements that were tried came to.
#[derive(Drop)]
pub struct Gathered {
    pub results: BulkList,
    /// The entries that they append, in their order.
    pub entries: Entries,
    /// The volumes that the first reply of each of the entries shows.
    pub volumes: List<FirstVolumes>,
}

impl Gathered {
    /// Before any element is tried.
    pub fn nothing(alloc: Global) -> Gathered
        ensures { result ≡ nothing_gathered }
    {
        Gathered {
            results: List::new(alloc),
            entries: List::new(alloc),
            volumes: List::new(alloc),
        }
    }
}

/// What all elements came to.
#[derive(Drop)]
pub enum Gathering {
    /// The result of the first element that failed, where the list is atomic: nothing is appended.
    Failed(BulkItem),
    Complete(Gathered),
}

/// What one element does to its list.
#[derive(Drop)]
pub enum Turn {
    GoOn,
    /// The element failed, and the list ends with it.
    End,
    /// The element failed, and the atomic list with it: its result.
    Fail(BulkItem),
}
