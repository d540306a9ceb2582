//! The lines that say what came of a script: one for each reply, and one for each event.

ghost use Rattle.std.specs.Prelude.{slice_get};
ghost use Rattle.lg_base.specs.Feeding.{Feeds};
ghost use Rattle.lg_batch.specs.LineParts.{line_part_text};
ghost use Rattle.lg_batch.specs.Runs.{line_at};
ghost use Rattle.lg_types.specs.CallTexts.{truth_text};
ghost use Rattle.lg_views.specs.Output.{answer_line, event_line, event_lines};

use crate::line_parts::LinePart;
use lg_base::{Feed, Stop};
use lg_book::Book;
use lg_containers::{Canonical, feed_all};
use lg_replies::{reply_text, status_of};
use lg_types::{Event, Part, event_text};
use lg_views::{Answer, ScriptLine};

fn feed_truth<F: Feed>(truth: bool, to: &mut F) -> Result<(), Stop>
    ensures { Feeds F.Feed to.old to.new (truth_text truth) result }
{
    if truth {
        to.piece(b"true")
    } else {
        to.piece(b"false")
    }
}

impl<'a> Canonical for LinePart<'a> {
    ghost text = { line_part_text };

    fn feed_to<F: Feed>(&self, to: &mut F) -> Result<(), Stop> {
        match self {
            LinePart::Base(part) => part.feed_to(to),
            LinePart::Truth(truth) => feed_truth(*truth, to),
            LinePart::Body(reply) => reply_text(reply, to),
        }
    }
}

/// Feeds the line of an answer.
pub fn feed_answer<F: Feed>(line: &ScriptLine, answer: &Answer, to: &mut F) -> Result<(), Stop>
    ensures { Feeds F.Feed to.old to.new (answer_line (line.now, answer.now)) result }
{
    let status = status_of(&answer.reply);
    feed_all(
        &[
            LinePart::Base(Part::Plain(b"{\"line\":")),
            LinePart::Base(Part::Number(line.line)),
            LinePart::Base(Part::Plain(b",\"front\":")),
            LinePart::Base(Part::Number(answer.front)),
            LinePart::Base(Part::Plain(b",\"events\":")),
            LinePart::Base(Part::Number(answer.events)),
            LinePart::Base(Part::Plain(b",\"hit\":")),
            LinePart::Truth(answer.reply.hit),
            LinePart::Base(Part::Plain(b",\"status\":")),
            LinePart::Base(Part::Number(status as u64)),
            LinePart::Base(Part::Plain(b",\"body\":")),
            LinePart::Body(&answer.reply),
            LinePart::Base(Part::Plain(b"}\n")),
        ],
        to,
    )
}

fn feed_event<F: Feed>(place: u64, event: &Event, to: &mut F) -> Result<(), Stop>
    ensures { Feeds F.Feed to.old to.new (event_line (place, event.now)) result }
{
    event_text(place, event, to)?;
    to.piece(b"\n")
}

/// Feeds the line of the event at the place, where there is one.
fn feed_event_at<F: Feed>(book: &Book, place: u64, to: &mut F) -> Result<(), Stop>
    ensures { Feeds F.Feed to.old to.new (line_at place (slice_get book.now.events place)) result }
{
    match book.event(place) {
        Some(event) => feed_event(place, event, to),
        None => to.piece(b""),
    }
}

/// Feeds the lines of the events.
pub fn feed_events<F: Feed>(book: &Book, to: &mut F) -> Result<(), Stop>
    ensures { Feeds F.Feed to.old to.new (event_lines book.now.events) result }
{
    for place in 0..book.len() {
        feed_event_at(book, place, to)?;
    }
    Ok(())
}
