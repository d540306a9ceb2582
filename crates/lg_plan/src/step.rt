//! One event of a plan.

ghost use Rattle.std.specs.Prelude.{◌≡◌, ℕ};
ghost use Rattle.lg_types.specs.Parts.{touches};
ghost use Rattle.lg_turns.specs.Stripes.{has};

use lg_book::FirstVolumes;
use lg_containers::Shared;
use lg_turns::StripeSet;
use lg_types::Event;

/// An event that is added, with the volumes of its first reply and the stripes of its resources.
#[derive(Drop)]
pub struct Step {
    pub(crate) event: Shared<Event>,
    pub(crate) volumes: Shared<FirstVolumes>,
    pub(crate) stripes: StripeSet,
    pub ghost touched: { (k : ℕ) → has stripes k ≡ touches k event },
}
