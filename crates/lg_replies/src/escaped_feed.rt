//! A feed that escapes what it is fed.

ghost use Rattle.std.specs.Prelude.{◌≡◌, Bool, true, false};
ghost use Rattle.lg_replies.specs.Escaping.{StandsFor};

use lg_base::{Feed, Stop, feed_escaped};

/// Feeds another feed what stands between the quotes of a JSON string for what it is fed itself.
///
/// After a stop it feeds nothing more.
#[derive(Drop)]
pub struct EscapedFeed<'a, F: Feed> {
    to: &'a mut F,
    stopped: bool,
}

impl<'a, F: Feed> EscapedFeed<'a, F> {
    /// A feed in front of this one.
    pub fn new(to: &'a mut F) -> EscapedFeed<'a, F>
        ensures same_reference { result.to.ghost_name ≡ to.entry.ghost_name }
        ensures to { result.to.now ≡ to.old }
        ensures whole { result.stopped ≡ false }
    {
        EscapedFeed { to, stopped: false }
    }

    /// Whether the feed behind it has stopped.
    pub fn has_stopped(&self) -> bool
        ensures { result ≡ self.now.stopped }
    {
        self.stopped
    }
}

impl<'a, F: Feed> Feed for EscapedFeed<'a, F> {
    ghost fed = { λ f m. StandsFor F.fed F.stops F.lent f.to.now f.stopped m };

    ghost stops = { λ f. F.stops f.to.now };

    ghost lent = { λ f. f.to.ghost_name };

    fn piece(&mut self, bytes: &[u8]) -> Result<(), Stop> {
        if self.stopped {
            return Ok(());
        }
        match feed_escaped(bytes, self.to) {
            Ok(()) => Ok(()),
            Err(Stop) => {
                self.stopped = true;
                Err(Stop)
            }
        }
    }
}
