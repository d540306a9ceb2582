//! Feeding filters.

ghost use Rattle.std.specs.Prelude.{codes, ◌++◌};
ghost use Rattle.lg_base.specs.Feeding.{Feeds};
ghost use Rattle.lg_containers.specs.CanonicalTexts.{commas, list_text};
ghost use Rattle.lg_tokens.specs.TextParts.{comma_unless};
ghost use Rattle.lg_views.specs.Tokens.{filter_text, one_member};

use crate::comparisons::{feed_comparison, feed_existence, feed_opening};
use crate::words::op_name;
use lg_base::{Feed, Stop};
use lg_types::Filter;

/// Feeds a filter in canonical form.
#[cycle(filter_texts)]
pub fn feed_filter<F: Feed>(filter: &Filter, to: &mut F) -> Result<(), Stop>
    ensures { Feeds F.Feed to.old to.new (filter_text filter.now) result }
{
    match filter {
        Filter::All => to.piece(b"{}"),
        Filter::Compare { op, field, value } => feed_comparison(op_name(*op), field, value, to),
        Filter::Has(name) => feed_existence(name.bytes(), to),
        Filter::Both(filters) => feed_list(b"$and", filters.as_slice(), to),
        Filter::Either(filters) => feed_list(b"$or", filters.as_slice(), to),
        Filter::Not(filter) => feed_denial(filter.get(), to),
    }
}

/// Feeds that a filter doesn't hold.
#[cycle(filter_texts)]
fn feed_denial<F: Feed>(filter: &Filter, to: &mut F) -> Result<(), Stop>
    ensures { Feeds F.Feed to.old to.new (one_member (codes "$not") (filter_text filter.now)) result }
{
    feed_opening(b"$not", to)?;
    feed_filter(filter, to)?;
    to.piece(b"}")
}

/// Feeds an operator over filters.
#[cycle(filter_texts)]
fn feed_list<F: Feed>(word: &[u8], filters: &[Filter], to: &mut F) -> Result<(), Stop>
    ensures { Feeds F.Feed to.old to.new (one_member word.now (list_text filter_text filters.now)) result }
{
    feed_opening(word, to)?;
    to.piece(b"[")?;
    feed_filters(filters, to)?;
    to.piece(b"]}")
}

/// Feeds the filters, with commas between them.
#[cycle(filter_texts)]
fn feed_filters<F: Feed>(filters: &[Filter], to: &mut F) -> Result<(), Stop>
    ensures { Feeds F.Feed to.old to.new (commas filter_text filters.now) result }
{
    let mut is_first = true;
    for filter in filters {
        feed_item(is_first, filter, to)?;
        is_first = false;
    }
    Ok(())
}

/// Feeds a filter of a list, after a comma where it isn't the first.
#[cycle(filter_texts)]
fn feed_item<F: Feed>(is_first: bool, filter: &Filter, to: &mut F) -> Result<(), Stop>
    ensures { Feeds F.Feed to.old to.new (comma_unless is_first ++ filter_text filter.now) result }
{
    feed_comma(is_first, to)?;
    feed_filter(filter, to)
}

fn feed_comma<F: Feed>(is_first: bool, to: &mut F) -> Result<(), Stop>
    ensures { Feeds F.Feed to.old to.new (comma_unless is_first) result }
{
    match is_first {
        true => to.piece(b""),
        false => to.piece(b","),
    }
}
