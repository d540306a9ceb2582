//! What an event does to the ledgers, when it is prepared, added or given up.

ghost use Rattle.std.specs.Prelude.{◌≡◌, OnOk, OnErr};
ghost use Rattle.lg_book.specs.Writing.{CanAddEvent, CanPrepareEvent, event_added, event_forgotten, event_prepared, events_forgotten};

use crate::ledgers::{
    Ledgers, add_logged, add_made, forget_logged, forget_made, prepare_logged, prepare_made,
};
use crate::volumes::FirstVolumes;
use lg_containers::Shared;
use lg_types::{Event, NoMemory};
use std::alloc::Global;

/// Prepares the event of the place.
pub(crate) fn prepare_event(
    alloc: Global,
    ledgers: &mut Ledgers,
    place: usize,
    event: &Event,
    volumes: &Shared<FirstVolumes>,
) -> Result<(), NoMemory>
    requires { CanPrepareEvent ledgers.old event.now }
    ensures ok { OnOk result (ledgers.new ≡ event_prepared place event.now volumes.now ledgers.old) }
    ensures err { OnErr result (ledgers.new ≡ ledgers.old) }
{
    match event {
        Event::Made(info) => prepare_made(alloc, ledgers, &info.name, place),
        Event::Logged { ledger, entry } => {
            prepare_logged(alloc, ledgers, ledger, place, entry, volumes)
        }
    }
}

/// Adds the first prepared event, which is the one given. Takes no memory.
pub(crate) fn add_event(ledgers: &mut Ledgers, event: &Event)
    requires { CanAddEvent ledgers.old event.now }
    ensures { ledgers.new ≡ event_added event.now ledgers.old }
{
    match event {
        Event::Made(info) => add_made(ledgers, &info.name),
        Event::Logged { ledger, entry } => add_logged(ledgers, ledger, entry),
    }
}

fn forget_event(ledgers: &mut Ledgers, event: &Event)
    ensures { ledgers.new ≡ event_forgotten event.now ledgers.old }
{
    match event {
        Event::Made(info) => forget_made(ledgers, &info.name),
        Event::Logged { ledger, entry } => forget_logged(ledgers, ledger, &entry.body),
    }
}

/// Gives up the prepared events.
pub(crate) fn forget_events(ledgers: &mut Ledgers, events: &[Shared<Event>])
    ensures { ledgers.new ≡ events_forgotten events.now ledgers.old }
{
    for event in events {
        forget_event(ledgers, event.get());
    }
}
