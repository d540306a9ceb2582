//! Events of a plan on the book.

ghost use Rattle.std.specs.Prelude.{◌≡◌, ◌+◌, ◌^◌, ◌<◌, ◌++◌, [], ◌∷◌, length, OnOk, OnErr};
ghost use Rattle.lg_book.specs.FirstVolumes.{volumes_after};
ghost use Rattle.lg_book.specs.Following.{MayFollow};
ghost use Rattle.lg_plan.specs.Events.{AllPrepare};
ghost use Rattle.lg_plan.specs.Steps.{events_in, volumes_in};

use crate::step::Step;
use lg_book::Book;
use lg_types::NoMemory;

/// Prepares the events on the book, each with its volumes.
pub(crate) fn prepare_on_book(steps: &[Step], book: &mut Book) -> Result<(), NoMemory>
    requires clean { book.old.prepared ≡ [] }
    requires fits { AllPrepare book.old.events (events_in steps.now) (volumes_in steps.now) }
    ensures ok { OnOk result (book.new ≡ record { events = book.old.events; prepared = events_in steps.now }) }
    ensures err { OnErr result (book.new ≡ book.old) }
    ensures room { OnOk result (length book.old.events + length steps.now < 2 ^ 64) }
{
    let _count = book.len();
    for i in 0..steps.len() {
        match prepare_booked(&steps[i], book) {
            Ok(()) => {}
            Err(e) => {
                book.forget();
                return Err(e);
            }
        }
    }
    Ok(())
}

fn prepare_booked(step: &Step, book: &mut Book) -> Result<(), NoMemory>
    requires follows { MayFollow (book.old.events ++ book.old.prepared) step.now.event }
    requires volumes { step.now.volumes ≡ volumes_after (book.old.events ++ book.old.prepared) step.now.event }
    ensures ok { OnOk result (book.new ≡ record { events = book.old.events; prepared = book.old.prepared ++ step.now.event ∷ [] }) }
    ensures err { OnErr result (book.new ≡ book.old) }
    ensures room { OnOk result (length book.new.events + length book.new.prepared < 2 ^ 64) }
{
    book.prepare(&step.event, &step.volumes)
}

/// Adds the events to the book. Takes no memory.
pub(crate) fn add_to_book(steps: Vec<Step>, book: &mut Book)
    requires { book.old.prepared ≡ events_in steps.items }
    ensures { book.new ≡ record { events = book.old.events ++ events_in steps.items; prepared = [] } }
{
    for step in steps {
        book.apply(step.event.get());
    }
}
