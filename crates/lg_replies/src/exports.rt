//! Feeding the lines of a log.

ghost use Rattle.std.specs.Prelude.{◌≡◌, false};
ghost use Rattle.std.specs.List.{flat_map};
ghost use Rattle.lg_base.specs.Feeding.{Feeds};
ghost use Rattle.lg_base.specs.Texts.{quoted, escaped};
ghost use Rattle.lg_views.specs.Import.{export, line_text};

use crate::escaped_feed::EscapedFeed;
use lg_base::{Feed, Stop};
use lg_types::{Entry, EntryForm, entry_text};

fn feed_line<F: Feed>(entry: &Entry, to: &mut F) -> Result<(), Stop>
    ensures { Feeds F.Feed to.old to.new (line_text entry.now) result }
{
    entry_text(entry, EntryForm::Line, to)?;
    to.piece(b"\n")
}

/// Feeds the lines of a log, each with a newline.
pub fn feed_lines<F: Feed>(entries: &[Entry], to: &mut F) -> Result<(), Stop>
    ensures { Feeds F.Feed to.old to.new (export entries.now) result }
{
    for entry in entries {
        feed_line(entry, to)?;
    }
    Ok(())
}

/// Feeds the lines through a feed that escapes them; a stop that it met is the answer.
fn feed_lines_through<F: Feed>(entries: &[Entry], feed: &mut EscapedFeed<'_, F>) -> Result<(), Stop>
    requires { feed.old.stopped ≡ false }
    ensures same_reference { feed.new.to.ghost_name ≡ feed.old.to.ghost_name }
    ensures fed { Feeds F.Feed feed.old.to.now feed.new.to.now (flat_map escaped (export entries.now)) result }
{
    feed_lines(entries, feed)?;
    if feed.has_stopped() {
        return Err(Stop);
    }
    Ok(())
}

/// Feeds the lines as they stand between the quotes of a JSON string.
fn feed_escaped_lines<F: Feed>(entries: &[Entry], to: &mut F) -> Result<(), Stop>
    ensures { Feeds F.Feed to.old to.new (flat_map escaped (export entries.now)) result }
{
    let mut feed = EscapedFeed::new(to);
    feed_lines_through(entries, &mut feed)
}

/// Feeds the lines of a log as a JSON string.
pub fn feed_export<F: Feed>(entries: &[Entry], to: &mut F) -> Result<(), Stop>
    ensures { Feeds F.Feed to.old to.new (quoted (export entries.now)) result }
{
    to.piece(b"\"")?;
    feed_escaped_lines(entries, to)?;
    to.piece(b"\"")
}
