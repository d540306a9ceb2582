//! What one stripe knows of the ledgers.

ghost use Rattle.std.specs.Prelude.{◌≡◌, ◌+◌, ◌<◌, ◌↔◌, [], ◌∷◌, ◌++◌, drop, slice_get, Some, OnOk, OnErr, IfOk, IfSome, IsNone};
ghost use Rattle.lg_types.specs.Parts.{shares_of};
ghost use Rattle.lg_shard.specs.Following.{Follows};
ghost use Rattle.lg_shard.specs.Held.{all_shown, IsHeld};
ghost use Rattle.lg_shard.specs.Shown.{AreWithinLimit, ListsExactly, account_changes, account_moves, is_known, is_moved, kept_under, used_under};
ghost use Rattle.std.specs.Option.{option_copied};
ghost use Rattle.lg_shard.specs.Next.{IsNextName};
ghost use Rattle.lg_shard.specs.State.{StripeState, placed, coming_shares};

use crate::events::{apply_event, prepare_event, push_kept, release_events, take_names};
use crate::kept::KeptEvent;
use crate::ledgers::Ledgers;
use crate::readers::{
    find_history, find_index, is_named_in, moved_assets, named_accounts, next_moved, next_named,
};
use lg_containers::{Address, Asset, Key, LedgerName, List, NoMemory, Reference, Shared};
use lg_keys::Kept;
use lg_maps::NameMap;
use lg_meta::MetaHistory;
use lg_moves::MoveIndex;
use lg_runs::Steps;
use lg_types::Event;
use std::alloc::Global;
use std::marker::{Brand, Model};
use std::sync::ledger::{Blank, Ledger};

/// The accounts, keys and references of one stripe.
///
/// An event is prepared first, which takes all the memory that it needs, and applied later, which takes none. Each event
/// is kept together with those who gave it.
#[derive(Drop)]
pub struct Shard {
    alloc: Global,
    stripe: u8,
    // The events that were applied, and then those that are prepared.
    events: Vec<KeptEvent>,
    applied: usize,
    ledgers: Ledgers,
}

impl Model for Shard {
    ghost use Rattle.lg_shard.specs.State.{StripeState};
    ghost use Rattle.lg_shard.specs.Held.{IsHeld, state_of};

    ghost Value = { StripeState };

    ghost view = { λ x. state_of x.stripe x.events.items x.applied };

    ghost invariant = { λ x. IsHeld x.stripe x.events.items x.applied x.ledgers };
}

impl Shard {
    /// The shard of the stripe, without shares.
    pub fn new(alloc: Global, stripe: u8) -> Shard
        ensures { result ≡ record { stripe = stripe; shares = []; prepared = [] } }
    {
        Shard {
            alloc,
            stripe,
            events: Vec::new(alloc),
            applied: 0,
            ledgers: NameMap::new(alloc),
        }
    }

    /// The number of the stripe.
    pub fn stripe(&self) -> u8
        ensures { result ≡ self.now.stripe }
    {
        let _ = &self.events;
        self.stripe
    }

    /// A law of what is applied: the moves of each account and each asset of each ledger add up within the limit. Nothing is run.
    pub fn totals_within(&self)
        ensures { AreWithinLimit self.now.shares }
    {
        let _ = &self.events;
    }

    /// Prepares the event, as the last of those that are prepared.
    pub fn prepare(&mut self, event: &Shared<Event>, place: u64) -> Result<(), NoMemory>
        requires { Follows (coming_shares self.old) (shares_of self.old.stripe place event.now) }
        ensures ok { OnOk result (self.new ≡ record { stripe = self.old.stripe; shares = self.old.shares; prepared = self.old.prepared ++ placed place event.now ∷ [] }) }
        ensures err { OnErr result (self.new ≡ self.old) }
    {
        let shared = event.share()?;
        self.events.reserve(1)?;
        let count = self.events.len() - self.applied + 1;
        let names = prepare_event(
            self.alloc,
            &mut self.ledgers,
            self.stripe,
            event.get(),
            count,
        )?;
        let kept = KeptEvent {
            place,
            event: shared,
            names,
        };
        push_kept(&mut self.events, kept);
        Ok(())
    }

    /// Gives up what is prepared.
    pub fn forget(&mut self)
        ensures { self.new ≡ record { stripe = self.old.stripe; shares = self.old.shares; prepared = [] } }
    {
        release_events(&mut self.ledgers, self.stripe, &self.events[self.applied..]);
        self.events.truncate(self.applied);
    }

    /// Applies the first prepared event, which is the one given. Takes no memory.
    pub fn apply(&mut self, event: &Event, place: u64)
        requires { slice_get self.old.prepared 0 ≡ Some (placed place event.now) }
        ensures { self.new ≡ record { stripe = self.old.stripe; shares = self.old.shares ++ shares_of self.old.stripe place event.now; prepared = drop 1 self.old.prepared } }
    {
        apply_next::<Brand>(
            &mut self.ledgers,
            &mut self.events,
            self.applied,
            self.stripe,
            event,
            place,
            Blank::new(1),
        );
        self.applied += 1;
    }

    /// The index of the moves of an account and an asset of the ledger. It may have room besides.
    pub fn index(&self, ledger: &LedgerName, account: &Address, asset: &Asset) -> Option<&MoveIndex>
        ensures some { IfSome result (λ index. index.now.items ≡ account_moves self.now.shares ledger.now account.now asset.now) }
        ensures none { IsNone result ↔ (account_moves self.now.shares ledger.now account.now asset.now ≡ []) }
    {
        match self.ledgers.find(ledger.bytes()) {
            Some(part) => find_index(&part.accounts, account, asset),
            None => None,
        }
    }

    /// The history of an account's metadata in the ledger. It may have prepared changes besides.
    pub fn history(&self, ledger: &LedgerName, account: &Address) -> Option<&MetaHistory>
        ensures some { IfSome result (λ history. history.now.changes ≡ account_changes self.now.shares ledger.now account.now) }
        ensures none { IsNone result ↔ (account_changes self.now.shares ledger.now account.now ≡ []) }
    {
        match self.ledgers.find(ledger.bytes()) {
            Some(part) => find_history(&part.accounts, account),
            None => None,
        }
    }

    /// Whether the ledger names the account: in a posting, by metadata given for it, or as a target.
    pub fn known(&self, ledger: &LedgerName, account: &Address) -> bool
        ensures { result ≡ is_known self.now.shares ledger.now account.now }
    {
        match self.ledgers.find(ledger.bytes()) {
            Some(part) => is_named_in(&part.accounts, account),
            None => false,
        }
    }

    /// The accounts that the ledger names, in byte order.
    pub fn addresses(&self, ledger: &LedgerName) -> Result<List<Address>, NoMemory>
        ensures { IfOk result (λ names. ListsExactly names (is_known self.now.shares ledger.now)) }
    {
        match self.ledgers.find(ledger.bytes()) {
            Some(part) => named_accounts(self.alloc, &part.accounts),
            None => Ok(List::new(self.alloc)),
        }
    }

    /// The assets in which an account of the ledger has moves, in byte order.
    pub fn assets(&self, ledger: &LedgerName, account: &Address) -> Result<List<Asset>, NoMemory>
        ensures { IfOk result (λ names. ListsExactly names (is_moved self.now.shares ledger.now account.now)) }
    {
        match self.ledgers.find(ledger.bytes()) {
            Some(part) => moved_assets(self.alloc, &part.accounts, account),
            None => Ok(List::new(self.alloc)),
        }
    }

    /// The next account behind the given one that the ledger names, in byte order; where none is given, the first of all.
    /// Takes no memory and copies no list.
    pub fn account_after(&self, ledger: &LedgerName, after: Option<&Address>) -> Option<&Address>
        ensures { IsNextName (is_known self.now.shares ledger.now) (option_copied after.entry) (option_copied result) }
    {
        match self.ledgers.find(ledger.bytes()) {
            Some(part) => next_named(&part.accounts, after),
            None => None,
        }
    }

    /// The next asset behind the given one in which an account of the ledger has moves, in byte order; where none is
    /// given, the first of all. Takes no memory and copies no list.
    pub fn asset_after(
        &self,
        ledger: &LedgerName,
        account: &Address,
        after: Option<&Asset>,
    ) -> Option<&Asset>
        ensures { IsNextName (is_moved self.now.shares ledger.now account.now) (option_copied after.entry) (option_copied result) }
    {
        match self.ledgers.find(ledger.bytes()) {
            Some(part) => next_moved(&part.accounts, account, after),
            None => None,
        }
    }

    /// What is kept of the request that came with the key.
    pub fn key(&self, ledger: &LedgerName, key: &Key) -> Option<Kept>
        ensures { result ≡ kept_under self.now.shares ledger.now key.now }
    {
        match self.ledgers.find(ledger.bytes()) {
            Some(part) => part.keys.find(key.bytes()).copied(),
            None => None,
        }
    }

    /// The id of the transaction that has the reference.
    pub fn reference(&self, ledger: &LedgerName, reference: &Reference) -> Option<u64>
        ensures { result ≡ used_under self.now.shares ledger.now reference.now }
    {
        match self.ledgers.find(ledger.bytes()) {
            Some(part) => part.references.find(reference.bytes()).copied(),
            None => None,
        }
    }
}

// Applies the event at the place behind those that were applied.
fn apply_next<L: Ledger>(
    ledgers: &mut Ledgers,
    events: &mut Vec<KeptEvent>,
    applied: usize,
    stripe: u8,
    event: &Event,
    place: u64,
    blank: Blank,
)
    requires name { blank.name ≡ L.name }
    requires parts { blank.parts ≡ L.parts }
    requires some { 0 < L.parts }
    requires held { IsHeld stripe events.old.items applied ledgers.old }
    requires first { slice_get (drop applied (all_shown events.old.items)) 0 ≡ Some (placed place event.now) }
    ensures held { IsHeld stripe events.new.items (applied + 1) ledgers.new }
    ensures shown { all_shown events.new.items ≡ all_shown events.old.items }
{
    let _ = place;
    let names = take_names(events, applied);
    let mut steps = Steps::<L>::new(blank);
    apply_event(ledgers, stripe, event, names, &mut steps);
}
