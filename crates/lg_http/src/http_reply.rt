//! Replies.

ghost use Rattle.std.specs.Prelude.{◌≡◌, ℕ, List};
ghost use Rattle.lg_base.specs.Feeding.{Feeds};
ghost use Rattle.lg_http.specs.declared.reply_head.ReplyHead.{ReplyHead};

use crate::reply_head::ReplyHead;
use lg_base::{Feed, Stop};

/// What a reply on a connection shows.
pub trait HttpReply {
    /// What its head says.
    ghost head_of: { Self → ReplyHead };

    /// Its body, which is shown where the head names a media type.
    ghost body_of: { Self → List ℕ };

    /// What its head says.
    fn head(&self) -> ReplyHead
        ensures { result ≡ head_of self.now };

    /// Feeds the body.
    fn feed_body<F: Feed>(&self, to: &mut F) -> Result<(), Stop>
        ensures { Feeds F.Feed to.old to.new (body_of self.now) result };
}
