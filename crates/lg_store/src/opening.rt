//! The shards of a ledger without entries.

ghost use Rattle.std.specs.Prelude.{IfOk, []};
ghost use Rattle.lg_types.specs.Log.{first_events};
ghost use Rattle.lg_plan.specs.Events.{AreShards};

use lg_shard::Shard;
use lg_types::NoMemory;
use std::alloc::Global;

/// A shard for each stripe, without shares.
#[tactic(auto, using(crate::proofs::FreshShards::fresh_are_shards))]
pub fn fresh_shards(alloc: Global) -> Result<Vec<Shard>, NoMemory>
    ensures { IfOk result (λ shards. AreShards first_events [] shards.items) }
{
    let mut shards = Vec::new(alloc);
    for stripe in 0..16 {
        shards.push(Shard::new(alloc, stripe))?;
    }
    Ok(shards)
}
