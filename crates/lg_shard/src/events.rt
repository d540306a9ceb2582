//! Events on the ledgers of a stripe.

ghost use Rattle.std.specs.Prelude.{◌≡◌, ℕ, ◌+◌, ◌<◌, List, [], ◌∷◌, ◌++◌, drop, vec_len, OnOk, OnErr, IfOk, IsSome, slice_index_or};
ghost use Rattle.std.specs.Vec.{vec_capacity};
ghost use Rattle.lg_containers.specs.NameTable as table;
ghost use Rattle.lg_types.specs.Parts.{Share, shares_of};
ghost use Rattle.lg_shard.specs.declared.kept.KeptEvent.{KeptEvent};
ghost use Rattle.lg_shard.specs.Held.{all_shown, IsReadyEvent};
ghost use Rattle.lg_shard.specs.State.{all_shares};
ghost use Rattle.lg_shard.specs.Ties.{LedgersTied, AreRoomFor, IsReadyFor};

use crate::kept::KeptEvent;
use crate::ledgers::{Ledgers, apply_entry, prepare_entry, release_entry};
use crate::names::Names;
use lg_containers::NoMemory;
use lg_runs::Steps;
use lg_types::Event;
use std::alloc::Global;
use std::mem;
use std::sync::ledger::Ledger;

/// Makes the ledgers ready for an event, as the last of at most `count` that are prepared.
pub fn prepare_event(
    alloc: Global,
    ledgers: &mut Ledgers,
    stripe: u8,
    event: &Event,
    count: usize,
) -> Result<Names, NoMemory>
    ensures ready { IfOk result (λ names. IsReadyEvent stripe ledgers.new names event.now) }
    ensures ok { OnOk result ((place : ℕ) (shares coming : List Share) → AreRoomFor count coming → LedgersTied ledgers.old shares coming → LedgersTied ledgers.new shares (coming ++ shares_of stripe place event.now)) }
    ensures err { OnErr result ((shares coming : List Share) → LedgersTied ledgers.old shares coming → LedgersTied ledgers.new shares coming) }
    ensures still { (q : List ℕ) → IsSome (table.get ledgers.old q) → IsSome (table.get ledgers.new q) }
{
    match event {
        Event::Made(_) => Ok(Names::none()),
        Event::Logged { ledger, entry } => {
            prepare_entry(alloc, ledgers, stripe, ledger, entry, count)
        }
    }
}

/// Applies a prepared event.
pub fn apply_event<L: Ledger>(
    ledgers: &mut Ledgers,
    stripe: u8,
    event: &Event,
    names: Names,
    steps: &mut Steps<L>,
)
    requires names { IsReadyEvent stripe ledgers.old names event.now }
    requires ready { IsReadyFor ledgers.old stripe event.now }
    ensures tied { (place : ℕ) (shares coming : List Share) → LedgersTied ledgers.old shares (shares_of stripe place event.now ++ coming) → LedgersTied ledgers.new (shares ++ shares_of stripe place event.now) coming }
    ensures still { (q : List ℕ) → IsSome (table.get ledgers.old q) → IsSome (table.get ledgers.new q) }
{
    match event {
        Event::Made(_) => {}
        Event::Logged { ledger, entry } => {
            apply_entry(ledgers, stripe, ledger, entry, names, steps);
        }
    }
}

// Gives up the event that was prepared last.
fn release_event(ledgers: &mut Ledgers, stripe: u8, event: &Event)
    ensures { (place : ℕ) (shares coming : List Share) → LedgersTied ledgers.old shares (coming ++ shares_of stripe place event.now) → LedgersTied ledgers.new shares coming }
{
    match event {
        Event::Made(_) => {}
        Event::Logged { ledger, entry } => release_entry(ledgers, stripe, ledger, entry),
    }
}

/// Gives up the events, which are all that are prepared, from the last to the first.
pub fn release_events(ledgers: &mut Ledgers, stripe: u8, events: &[KeptEvent])
    ensures { (shares : List Share) → LedgersTied ledgers.old shares (all_shares stripe (all_shown events.now)) → LedgersTied ledgers.new shares [] }
{
    for count in 0..events.len() {
        release_event(
            ledgers,
            stripe,
            events[events.len() - 1 - count].event.get(),
        );
    }
}

/// Takes the names of the event at the place out of it.
pub fn take_names(events: &mut Vec<KeptEvent>, place: usize) -> Names
    requires { place < vec_len events.old }
    ensures names { (d : KeptEvent) → result ≡ (slice_index_or events.old.items place d).names }
    ensures shown { all_shown events.new.items ≡ all_shown events.old.items }
    ensures rest { drop (place + 1) events.new.items ≡ drop (place + 1) events.old.items }
    ensures len { vec_len events.new ≡ vec_len events.old }
{
    let kept = &mut events[place];
    mem::replace(&mut kept.names, Names::none())
}

/// Puts an event behind the others, where there is room.
pub fn push_kept(events: &mut Vec<KeptEvent>, kept: KeptEvent)
    requires { vec_len events.old < vec_capacity events.old }
    ensures { events.new.items ≡ events.old.items ++ kept ∷ [] }
{
    match events.push(kept) {
        Ok(()) => {}
        Err(_) => unreachable!(),
    }
}
