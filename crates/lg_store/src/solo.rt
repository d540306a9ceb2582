//! The ledger of one thread.

ghost use Rattle.std.specs.Prelude.{◌≡◌, ◌<◌, ◌↔◌, [], IfOk, IfSome, IsSome};
ghost use Rattle.lg_types.specs.Log.{first_events};
ghost use Rattle.lg_types.specs.Parts.{part_of};
ghost use Rattle.lg_store.specs.Answering.{Answers};

use crate::calls::answer_call;
use crate::opening::fresh_shards;
use lg_book::Book;
use lg_shard::Shard;
use lg_types::{Call, NoMemory, Refusal};
use lg_views::{Answer, Content, Reply};
use std::alloc::Global;
use std::marker::Model;

/// All ledgers, for one thread: a shard for each stripe, and the book. It is seen as the list of all events.
#[derive(Drop)]
pub struct Solo {
    alloc: Global,
    shards: Vec<Shard>,
    book: Book,
}

impl Model for Solo {
    ghost use Rattle.std.specs.Prelude.{◌≡◌, List, []};
    ghost use Rattle.lg_types.specs.declared.records.Event.{Event};
    ghost use Rattle.lg_plan.specs.Events.{AreShards};

    ghost Value = { List Event };

    ghost view = { λ s. s.book.events };

    ghost invariant = { λ s. AreShards s.book.events [] s.shards.items × (s.book.prepared ≡ []) };
}

impl Solo {
    /// The ledgers at the start: `default` was made.
    pub fn new(alloc: Global) -> Result<Solo, NoMemory>
        ensures { IfOk result (λ solo. solo ≡ first_events) }
    {
        let book = Book::opened(alloc)?;
        let shards = fresh_shards(alloc)?;
        Ok(Solo {
            alloc,
            shards,
            book,
        })
    }

    /// What the journal knows.
    pub fn book(&self) -> &Book
        ensures { result.now ≡ record { events = self.now; prepared = [] } }
    {
        &self.book
    }

    /// What the shard of the stripe knows, and `None` where there is no such stripe: stripes are numbered from 0 to 15.
    pub fn shard(&self, stripe: u8) -> Option<&Shard>
        ensures there { IsSome result ↔ (stripe < 16) }
        ensures own { IfSome result (λ shard. shard.now ≡ record { stripe = stripe; shares = part_of stripe self.now; prepared = [] }) }
    {
        self.shards.get(stripe as usize)
    }

    /// Answers a call at a moment, in microseconds since 1970-01-01T00:00:00Z, and adds its events. Where memory is wanting
    /// the answer is `OutOfMemory`, and nothing is added. Imports, the list of ledgers and some reads are refused as not
    /// built.
    pub fn call(&mut self, call: &Call, now: i64) -> Answer
        ensures { Answers self.old call.now now result self.new }
    {
        let front = self.book.len();
        match answer_call(self.alloc, &mut self.shards, &mut self.book, call, now) {
            Ok(done) => Answer {
                front,
                events: done.events,
                reply: done.reply,
            },
            Err(NoMemory) => Answer {
                front,
                events: 0,
                reply: Reply {
                    hit: false,
                    content: Content::Refused(Refusal::OutOfMemory),
                },
            },
        }
    }
}
