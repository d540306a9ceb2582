//! Marks of a line: the sums of the entries before a place, and the greatest key among them.

ghost use Rattle.std.specs.Prelude.{◌≡◌, ◌+◌, ◌^◌, ◌<◌};
ghost use Rattle.lg_moves.specs.Line.{sums_in, mark_after};

use crate::bounds::{Bound, Key};
use crate::sums::Sums;
use lg_types::Move;

#[derive(Clone, Copy)]
pub(crate) struct Mark {
    /// The sums of all entries before the place.
    pub all: Sums,
    /// The sums of the timely ones among them.
    pub timely: Sums,
    /// The date and the transaction of the last of them, and the rank of the last timely one.
    pub key: Key,
}

impl Mark {
    /// The sums of the entries that stand in the order of the bound.
    pub(crate) fn sums_in(&self, bound: &Bound) -> Sums
        ensures { result ≡ sums_in bound.now self.now }
    {
        if bound.is_by_rank() {
            self.timely
        } else {
            self.all
        }
    }

    /// The mark after one more entry.
    pub(crate) fn after(&self, item: &Move, timely: bool) -> Mark
        requires input { self.now.all.input < 2 ^ 127 }
        requires output { self.now.all.output < 2 ^ 127 }
        requires count { self.now.all.count + 1 < 2 ^ 64 }
        requires timely_input { self.now.timely.input < 2 ^ 127 }
        requires timely_output { self.now.timely.output < 2 ^ 127 }
        requires timely_count { self.now.timely.count + 1 < 2 ^ 64 }
        ensures { result ≡ mark_after self.now item.now timely }
    {
        let all = self.all.with(item);
        if timely {
            Mark {
                all,
                timely: self.timely.with(item),
                key: Key::of(item),
            }
        } else {
            Mark {
                all,
                timely: self.timely,
                key: Key {
                    inserted: item.inserted,
                    transaction: item.transaction,
                    date: self.key.date,
                    id: self.key.id,
                },
            }
        }
    }
}
