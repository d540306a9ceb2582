//! Plans that are prepared and carried out by one thread.

ghost use Rattle.std.specs.Prelude.{◌≡◌, ◌+◌, ◌^◌, ◌<◌, ◌++◌, List, [], length, OnOk, OnErr};
ghost use Rattle.lg_types.specs.declared.records.Event.{Event};
ghost use Rattle.lg_plan.specs.Events.{AreShards, shard_of};
ghost use Rattle.lg_plan.specs.Plans.{Fits};
ghost use Rattle.lg_plan.specs.Stages.{AreParts};

use crate::booking::{add_to_book, prepare_on_book};
use crate::plan::Plan;
use crate::shards::{apply_to_shard, prepare_on_shard};
use lg_book::Book;
use lg_shard::Shard;
use lg_types::NoMemory;
use lg_views::Reply;

/// Prepares the plan on each shard that it touches and then on the book, which takes all the memory that carrying it out
/// needs. Where memory is wanting all is as before.
pub fn prepare_all(plan: &Plan, shards: &mut Vec<Shard>, book: &mut Book) -> Result<(), NoMemory>
    requires fits { Fits plan.now book.old.events }
    requires clean { book.old.prepared ≡ [] }
    requires shards { AreShards book.old.events [] shards.old.items }
    ensures book { OnOk result (book.new ≡ record { events = book.old.events; prepared = plan.now.events }) }
    ensures shards { OnOk result (AreShards book.old.events plan.now.events shards.new.items) }
    ensures room { OnOk result (length book.old.events + length plan.now.events < 2 ^ 64) }
    ensures same_book { OnErr result (book.new ≡ book.old) }
    ensures same_shards { OnErr result (AreShards book.old.events [] shards.new.items) }
{
    prepare_on_shards(plan, shards)?;
    match prepare_on_book(&plan.steps, book) {
        Ok(()) => Ok(()),
        Err(e) => {
            forget_all(shards);
            Err(e)
        }
    }
}

/// Adds the events of a plan that is prepared to the book and to the shards that they touch, and gives its reply. Takes no
/// memory.
pub fn carry_out(plan: Plan, shards: &mut Vec<Shard>, book: &mut Book) -> Reply
    requires place { length book.old.events ≡ plan.place }
    requires book { book.old.prepared ≡ plan.events }
    requires shards { AreShards book.old.events plan.events shards.old.items }
    ensures book { book.new ≡ record { events = book.old.events ++ plan.events; prepared = [] } }
    ensures shards { AreShards (book.old.events ++ plan.events) [] shards.new.items }
    ensures reply { result ≡ plan.reply }
{
    let mut plan = plan;
    apply_to_shards(&plan, shards);
    let steps = plan.take_steps();
    add_to_book(steps, book);
    plan.into_reply()
}

fn prepare_on_shards(plan: &Plan, shards: &mut Vec<Shard>) -> Result<(), NoMemory>
    requires { (es : List Event) × Fits plan.now es × AreShards es [] shards.old.items }
    ensures ok { OnOk result ((es : List Event) → Fits plan.now es → AreShards es [] shards.old.items → AreShards es plan.now.events shards.new.items) }
    ensures err { OnErr result ((es : List Event) → Fits plan.now es → AreShards es [] shards.old.items → AreShards es [] shards.new.items) }
{
    for stripe in 0..16u8 {
        match prepare_touched(plan, &mut shards[usize::from(stripe)], stripe) {
            Ok(()) => {}
            Err(e) => {
                forget_all(shards);
                return Err(e);
            }
        }
    }
    Ok(())
}

/// Prepares the plan on the shard, where it touches its stripe.
fn prepare_touched(plan: &Plan, shard: &mut Shard, stripe: u8) -> Result<(), NoMemory>
    requires { (es : List Event) × Fits plan.now es × (shard.old ≡ shard_of stripe es []) }
    ensures ok { OnOk result ((es : List Event) → Fits plan.now es → shard.old ≡ shard_of stripe es [] → shard.new ≡ shard_of stripe es plan.now.events) }
    ensures err { OnErr result (shard.new ≡ shard.old) }
{
    if plan.stripes.has(stripe) {
        prepare_on_shard(&plan.steps, plan.place, shard)
    } else {
        Ok(())
    }
}

/// Gives up what is prepared on the shards.
fn forget_all(shards: &mut Vec<Shard>)
    ensures { (es : List Event) → AreParts es shards.old.items → AreShards es [] shards.new.items }
{
    for i in 0..shards.len() {
        shards[i].forget();
    }
}

fn apply_to_shards(plan: &Plan, shards: &mut Vec<Shard>)
    requires { (es : List Event) × (length es ≡ plan.now.place) × AreShards es plan.now.events shards.old.items }
    ensures { (es : List Event) → length es ≡ plan.now.place → AreShards es plan.now.events shards.old.items → AreShards (es ++ plan.now.events) [] shards.new.items }
{
    for stripe in 0..16u8 {
        apply_touched(plan, &mut shards[usize::from(stripe)], stripe);
    }
}

/// Applies the plan's events to the shard, where they touch its stripe.
fn apply_touched(plan: &Plan, shard: &mut Shard, stripe: u8)
    requires { (es : List Event) × (length es ≡ plan.now.place) × (shard.old ≡ shard_of stripe es plan.now.events) }
    ensures { (es : List Event) → length es ≡ plan.now.place → shard.old ≡ shard_of stripe es plan.now.events → shard.new ≡ shard_of stripe (es ++ plan.now.events) [] }
{
    if plan.stripes.has(stripe) {
        apply_to_shard(&plan.steps, plan.place, shard);
    }
}
