//! The book.

ghost use Rattle.std.specs.Prelude.{◌≡◌, ◌+◌, ◌^◌, ◌<◌, [], ◌∷◌, ◌++◌, drop, length, Some, IsSome, IfSome, IfOk, OnOk, OnErr, is_some, slice_get};
ghost use Rattle.std.specs.Option.{option_copied};
ghost use Rattle.lg_meta.specs.MetaFold.{changes_about};
ghost use Rattle.lg_types.specs.Chain.{head as head_of};
ghost use Rattle.lg_types.specs.Known.{date as date_of_log, find_transaction};
ghost use Rattle.lg_types.specs.Log.{log, first_events};
ghost use Rattle.lg_views.specs.Replies.{plain};
ghost use Rattle.lg_views.specs.Writes.{first_reply as first_reply_of, up_to};
ghost use Rattle.lg_book.specs.FirstVolumes.{volumes_after};
ghost use Rattle.lg_book.specs.Following.{MayFollow, IsGrown};
ghost use Rattle.lg_book.specs.Reading.{ledger_of, count_entries, count_transactions, find_entry, transaction_at, inserted_at, reverted_by as reverting_id};

use crate::changing::{add_event, forget_events, prepare_event};
use crate::ledger_index::push_within;
use crate::ledgers::Ledgers;
use crate::opening::first_ledger;
use crate::readings::{
    counted, date_in, entry_in, event_at, history_in, info_in, inserted_in, last_hash_in, reply_in,
    reverted_in, transaction_in,
};
use crate::volumes::FirstVolumes;
use lg_containers::{LedgerName, Shared};
use lg_maps::NameMap;
use lg_meta::MetaHistory;
use lg_turns::Journal;
use lg_types::{Entry, Event, LedgerInfo, NoMemory, Target, Transaction, bring};
use lg_views::Reply;
use std::alloc::Global;
use std::marker::Model;

/// All events in their order, with what finds the ledgers, their entries and their transactions by a look-up.
///
/// An event is prepared first, which takes all the memory that it needs, and added later, which takes none.
#[derive(Drop)]
pub struct Book {
    alloc: Global,
    // The events that were added, and then the prepared ones.
    events: Vec<Shared<Event>>,
    added: usize,
    ledgers: Ledgers,
}

impl Model for Book {
    ghost use Rattle.std.specs.Prelude.{take, drop};
    ghost use Rattle.lg_book.specs.Booked.{Booked};
    ghost use Rattle.lg_book.specs.Index.{IsBook};

    ghost Value = { Booked };

    ghost view = { λ b. record { events = take b.added b.events.items; prepared = drop b.added b.events.items } };

    ghost invariant = { λ b. IsBook b.events.items b.added b.ledgers };
}

impl Book {
    /// The book with the one event that makes the ledger `default`.
    pub fn opened(alloc: Global) -> Result<Book, NoMemory>
        ensures { IfOk result (λ book. book ≡ record { events = first_events; prepared = [] }) }
    {
        let event = Shared::new(alloc, Event::Made(first_ledger(alloc)?))?;
        let volumes = Shared::new(alloc, FirstVolumes::none(alloc)?)?;
        let mut book = Book::empty(alloc);
        book.prepare(&event, &volumes)?;
        book.apply(event.get());
        Ok(book)
    }

    fn empty(alloc: Global) -> Book
        ensures { result ≡ record { events = []; prepared = [] } }
    {
        Book {
            alloc,
            events: Vec::new(alloc),
            added: 0,
            ledgers: NameMap::new(alloc),
        }
    }

    /// How many events there are. Each of them may follow those before it.
    pub fn len(&self) -> u64
        ensures len { result ≡ length self.now.events }
        ensures grown { IsGrown self.now.events }
    {
        self.added as u64
    }

    /// The event at the place, counted from 0.
    pub fn event(&self, place: u64) -> Option<&Event>
        ensures { option_copied result ≡ slice_get self.now.events place }
    {
        if place < self.added as u64 {
            event_at(&self.events, place as usize)
        } else {
            None
        }
    }

    /// The ledger's record, as it was made.
    pub fn ledger(&self, name: &LedgerName) -> Option<&LedgerInfo>
        ensures { option_copied result ≡ ledger_of self.now.events name.now }
    {
        match self.ledgers.find(name.bytes()) {
            None => None,
            Some(index) => info_in(&self.events, index),
        }
    }

    /// How many entries the ledger has.
    pub fn log_len(&self, name: &LedgerName) -> Option<u64>
        ensures { result ≡ count_entries self.now.events name.now }
    {
        match self.ledgers.find(name.bytes()) {
            None => None,
            Some(index) => counted(index.is_there(), index.logged()),
        }
    }

    /// How many transactions the ledger has.
    pub fn transactions(&self, name: &LedgerName) -> Option<u64>
        ensures { result ≡ count_transactions self.now.events name.now }
    {
        match self.ledgers.find(name.bytes()) {
            None => None,
            Some(index) => counted(index.is_there(), index.transacted()),
        }
    }

    /// The ledger's entry of the id.
    pub fn entry(&self, name: &LedgerName, id: u64) -> Option<&Entry>
        ensures { option_copied result ≡ find_entry (log self.now.events name.now) id }
    {
        match self.ledgers.find(name.bytes()) {
            None => None,
            Some(index) => entry_in(&self.events, index, id),
        }
    }

    /// The ledger's transaction of the id.
    pub fn transaction(&self, name: &LedgerName, id: u64) -> Option<&Transaction>
        ensures { option_copied result ≡ transaction_at (log self.now.events name.now) id }
    {
        match self.ledgers.find(name.bytes()) {
            None => None,
            Some(index) => transaction_in(&self.events, index, id),
        }
    }

    /// The date of the transaction's entry, in microseconds since 1970-01-01T00:00:00Z.
    pub fn inserted(&self, name: &LedgerName, id: u64) -> Option<i64>
        ensures { result ≡ inserted_at (log self.now.events name.now) id }
    {
        match self.ledgers.find(name.bytes()) {
            None => None,
            Some(index) => inserted_in(&self.events, index, id),
        }
    }

    /// The id of the transaction that reverts the transaction of the id.
    pub fn reverted_by(&self, name: &LedgerName, id: u64) -> Option<u64>
        ensures { result ≡ reverting_id (log self.now.events name.now) id }
    {
        match self.ledgers.find(name.bytes()) {
            None => None,
            Some(index) => reverted_in(index, id),
        }
    }

    /// The metadata of the transaction of the id.
    pub fn transaction_history(&self, name: &LedgerName, id: u64) -> Option<&MetaHistory>
        ensures there { is_some result ≡ is_some (find_transaction (log self.now.events name.now) id) }
        ensures changes { IfSome result (λ history. history.now.changes ≡ changes_about (Target.Transaction id) (log self.now.events name.now)) }
    {
        match self.ledgers.find(name.bytes()) {
            None => None,
            Some(index) => history_in(index, id),
        }
    }

    /// The hash of the ledger's last entry.
    pub fn head(&self, name: &LedgerName) -> Option<[u8; 32]>
        ensures { result ≡ head_of (log self.now.events name.now) }
    {
        match self.ledgers.find(name.bytes()) {
            None => None,
            Some(index) => last_hash_in(&self.events, index),
        }
    }

    /// The date of a new entry of the ledger: the moment brought into the range of moments, and never before the last
    /// entry's date. Both are microseconds since 1970-01-01T00:00:00Z.
    pub fn date_for(&self, name: &LedgerName, now: i64) -> i64
        ensures { result ≡ date_of_log (log self.now.events name.now) now }
    {
        match self.ledgers.find(name.bytes()) {
            None => bring(&now),
            Some(index) => date_in(&self.events, index, now),
        }
    }

    /// The first reply of the ledger's entry of the id: the volumes are those right after the entry, whatever came later.
    /// `hit` is false in it: whoever answers a request by the entry that is kept for its key sets it.
    pub fn first_reply(&self, name: &LedgerName, entry: u64) -> Result<Reply, NoMemory>
        requires { IsSome (find_entry (log self.now.events name.now) entry) }
        ensures { IfOk result (λ reply. IfSome (find_entry (log self.now.events name.now) entry) (λ e. reply ≡ plain (first_reply_of (up_to (log self.now.events name.now) e) e))) }
    {
        match self.ledgers.find(name.bytes()) {
            None => unreachable!(),
            Some(index) => reply_in(self.alloc, &self.events, index, entry),
        }
    }

    /// Prepares the event, as the last of those that are prepared: takes all the memory that adding it needs. The
    /// volumes are those of its transaction right after it.
    pub fn prepare(
        &mut self,
        event: &Shared<Event>,
        volumes: &Shared<FirstVolumes>,
    ) -> Result<(), NoMemory>
        requires follows { MayFollow (self.old.events ++ self.old.prepared) event.now }
        requires volumes { volumes.now ≡ volumes_after (self.old.events ++ self.old.prepared) event.now }
        ensures ok { OnOk result (self.new ≡ record { events = self.old.events; prepared = self.old.prepared ++ event.now ∷ [] }) }
        ensures err { OnErr result (self.new ≡ self.old) }
        ensures room { length self.new.events + length self.new.prepared < 2 ^ 64 }
    {
        self.events.reserve(1)?;
        let shared = event.share()?;
        let place = self.events.len();
        prepare_event(self.alloc, &mut self.ledgers, place, event.get(), volumes)?;
        push_within(&mut self.events, shared);
        Ok(())
    }

    /// Gives the prepared events up.
    pub fn forget(&mut self)
        ensures { self.new ≡ record { events = self.old.events; prepared = [] } }
    {
        forget_events(&mut self.ledgers, &self.events[self.added..]);
        self.events.truncate(self.added);
    }

    /// Adds the first prepared event, which is the one given. Takes no memory.
    pub fn apply(&mut self, event: &Event)
        requires { slice_get self.old.prepared 0 ≡ Some event.now }
        ensures { self.new ≡ record { events = self.old.events ++ event.now ∷ []; prepared = drop 1 self.old.prepared } }
    {
        add_event(&mut self.ledgers, event);
        self.added += 1;
    }
}

impl Journal for Book {
    ghost use Rattle.lg_book.specs.Booked.{is_clean};

    ghost events = { λ b. b.events };

    ghost clean = { λ b. is_clean b.prepared };

    fn len(&self) -> u64 {
        self.added as u64
    }
}
