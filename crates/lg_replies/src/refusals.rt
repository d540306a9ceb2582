//! Feeding the bodies of refusals, and the results of elements that failed.

ghost use Rattle.std.specs.Prelude.{◌++◌, codes, decimal};
ghost use Rattle.std.specs.List.{flat_map};
ghost use Rattle.lg_base.specs.Feeding.{Feeds};
ghost use Rattle.lg_base.specs.Texts.{quoted, escaped};
ghost use Rattle.lg_views.specs.RefusalTexts.{message_text, refusal_text};
ghost use Rattle.lg_replies.specs.RefusalParts.{refusal_part_text};
ghost use Rattle.lg_views.specs.ReplyTexts.{description};

use crate::codes::code_of;
use crate::message_parts::MessagePart;
use crate::messages::feed_message;
use crate::refusal_parts::RefusalPart;
use lg_base::{Feed, Stop, feed_json_text};
use lg_containers::{Canonical, feed_all};
use lg_types::Refusal;

impl<'a> Canonical for RefusalPart<'a> {
    ghost text = { refusal_part_text };

    fn feed_to<F: Feed>(&self, to: &mut F) -> Result<(), Stop> {
        match self {
            RefusalPart::Plain(bytes) => to.piece(bytes),
            RefusalPart::Code(refusal) => feed_json_text(code_of(refusal), to),
            RefusalPart::Message(refusal) => feed_quoted_message(refusal, to),
            RefusalPart::Description(element, refusal) => {
                feed_quoted_description(*element, refusal, to)
            }
        }
    }
}

fn feed_quoted_message<F: Feed>(refusal: &Refusal, to: &mut F) -> Result<(), Stop>
    ensures { Feeds F.Feed to.old to.new (quoted (message_text refusal.now)) result }
{
    to.piece(b"\"")?;
    feed_message(refusal, to)?;
    to.piece(b"\"")
}

fn feed_quoted_description<F: Feed>(element: u64, refusal: &Refusal, to: &mut F) -> Result<(), Stop>
    ensures { Feeds F.Feed to.old to.new (quoted (description element refusal.now)) result }
{
    to.piece(b"\"")?;
    feed_description(element, refusal, to)?;
    to.piece(b"\"")
}

/// Feeds the place of an element and the message of its refusal, as they stand between the quotes of a JSON string.
fn feed_description<F: Feed>(element: u64, refusal: &Refusal, to: &mut F) -> Result<(), Stop>
    ensures { Feeds F.Feed to.old to.new (flat_map escaped (description element refusal.now)) result }
{
    MessagePart::Plain(b"element ").feed_to(to)?;
    MessagePart::Number(element as u128).feed_to(to)?;
    MessagePart::Plain(b": ").feed_to(to)?;
    feed_message(refusal, to)
}

/// Feeds the body of a refusal.
pub fn feed_refusal<F: Feed>(refusal: &Refusal, to: &mut F) -> Result<(), Stop>
    ensures { Feeds F.Feed to.old to.new (refusal_text refusal.now) result }
{
    feed_all(
        &[
            RefusalPart::Plain(b"{\"errorCode\":"),
            RefusalPart::Code(refusal),
            RefusalPart::Plain(b",\"errorMessage\":"),
            RefusalPart::Message(refusal),
            RefusalPart::Plain(b"}"),
        ],
        to,
    )
}
