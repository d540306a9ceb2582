//! Canonical texts over any feed.

ghost use Rattle.std.specs.Prelude.{ℕ, List};
ghost use Rattle.lg_base.specs.Feeding.{Feeds};

use lg_base::{Feed, Stop};

/// What has one text.
pub trait Canonical {
    /// The text of a value.
    ghost text: { Self → List ℕ };

    /// Feeds the text.
    fn feed_to<F: Feed>(&self, to: &mut F) -> Result<(), Stop>
        ensures { Feeds F.Feed to.old to.new (text self.now) result };
}
