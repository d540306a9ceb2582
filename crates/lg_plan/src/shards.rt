//! Events of a plan on one shard.

ghost use Rattle.std.specs.Prelude.{◌≡◌, ◌+◌, ◌^◌, ◌<◌, ◌++◌, List, [], ◌∷◌, length, OnOk, OnErr};
ghost use Rattle.lg_types.specs.declared.records.Event.{Event};
ghost use Rattle.lg_types.specs.Lists.{IsPrefix};
ghost use Rattle.lg_types.specs.Parts.{part_from, part_of, shares_of};
ghost use Rattle.lg_shard.specs.Following.{Follows};
ghost use Rattle.lg_shard.specs.State.{PlacedEvent, coming_shares};
ghost use Rattle.lg_plan.specs.Events.{own_events, AllPrepare};
ghost use Rattle.lg_plan.specs.Steps.{events_in, volumes_in};

use crate::step::Step;
use lg_shard::Shard;
use lg_types::NoMemory;

/// Prepares those of the events that touch the shard's stripe. The first event has the place.
pub(crate) fn prepare_on_shard(
    steps: &[Step],
    place: u64,
    shard: &mut Shard,
) -> Result<(), NoMemory>
    requires places { place + length steps.now < 2 ^ 64 }
    requires clean { shard.old.prepared ≡ [] }
    requires fits { (es : List Event) × (length es ≡ place) × AllPrepare es (events_in steps.now) (volumes_in steps.now) × (shard.old.shares ≡ part_of shard.old.stripe es) }
    ensures ok { OnOk result (shard.new ≡ record { stripe = shard.old.stripe; shares = shard.old.shares; prepared = own_events shard.old.stripe place (events_in steps.now) }) }
    ensures err { OnErr result (shard.new ≡ shard.old) }
{
    for i in 0..steps.len() {
        match prepare_step(&steps[i], place + i as u64, shard) {
            Ok(()) => {}
            Err(e) => {
                shard.forget();
                return Err(e);
            }
        }
    }
    Ok(())
}

fn prepare_step(step: &Step, place: u64, shard: &mut Shard) -> Result<(), NoMemory>
    requires { Follows (coming_shares shard.old) (shares_of shard.old.stripe place step.now.event) }
    ensures ok { OnOk result (shard.new ≡ record { stripe = shard.old.stripe; shares = shard.old.shares; prepared = shard.old.prepared ++ own_events shard.old.stripe place (step.now.event ∷ []) }) }
    ensures err { OnErr result (shard.new ≡ shard.old) }
{
    if step.stripes.has(shard.stripe()) {
        shard.prepare(&step.event, place)
    } else {
        Ok(())
    }
}

/// Applies those of the events that touch the shard's stripe. Takes no memory.
pub(crate) fn apply_to_shard(steps: &[Step], place: u64, shard: &mut Shard)
    requires places { place + length steps.now < 2 ^ 64 }
    requires prepared { shard.old.prepared ≡ own_events shard.old.stripe place (events_in steps.now) }
    ensures { shard.new ≡ record { stripe = shard.old.stripe; shares = shard.old.shares ++ part_from place shard.old.stripe (events_in steps.now); prepared = [] } }
{
    for i in 0..steps.len() {
        apply_step(&steps[i], place + i as u64, shard);
    }
}

fn apply_step(step: &Step, place: u64, shard: &mut Shard)
    requires { IsPrefix (own_events shard.old.stripe place (step.now.event ∷ [])) shard.old.prepared }
    ensures { (rest : List PlacedEvent) → shard.old.prepared ≡ own_events shard.old.stripe place (step.now.event ∷ []) ++ rest → shard.new ≡ record { stripe = shard.old.stripe; shares = shard.old.shares ++ shares_of shard.old.stripe place step.now.event; prepared = rest } }
{
    if step.stripes.has(shard.stripe()) {
        shard.apply(step.event.get(), place);
    }
}
