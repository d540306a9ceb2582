//! Feeding the members of a query.

ghost use Rattle.std.specs.Prelude.{◌≡◌, ◌++◌, codes};
ghost use Rattle.lg_base.specs.Feeding.{Feeds};
ghost use Rattle.lg_base.specs.Texts.{quoted};
ghost use Rattle.lg_types.specs.PartTexts.{optional_text};
ghost use Rattle.lg_views.specs.Tokens.{kind_name as name_of_kind, pit_text, start_text, end_text, expand_text, filter_text, filter_member, after_text};
ghost use Rattle.lg_tokens.specs.TextParts.{token_part_text, by_insertion_text, group_text, is_all_items};

use crate::text_parts::{TextPart, TokenPart};
use crate::words::kind_name;
use crate::written_filters::feed_filter;
use lg_base::{Feed, Stop, feed_json_text};
use lg_containers::{Canonical, feed_all};
use lg_types::{After, Expand, Filter, ListKind, Part};

impl<'a> Canonical for TokenPart<'a> {
    ghost text = { token_part_text };

    fn feed_to<F: Feed>(&self, to: &mut F) -> Result<(), Stop> {
        match self {
            TokenPart::Text(part) => part.feed_to(to),
            TokenPart::Kind(kind) => feed_kind(*kind, to),
            TokenPart::Pit(date) => feed_pit(date, to),
            TokenPart::Start(date) => feed_start(date, to),
            TokenPart::End(date) => feed_end(date, to),
            TokenPart::ByInsertion(by_insertion) => feed_by_insertion(*by_insertion, to),
            TokenPart::Group(group) => feed_group(*group, to),
            TokenPart::Expand(expand) => feed_expand(*expand, to),
            TokenPart::Filter(filter) => feed_filter_member(filter, to),
            TokenPart::After(after) => feed_after(after, to),
        }
    }
}

fn feed_kind<F: Feed>(kind: ListKind, to: &mut F) -> Result<(), Stop>
    ensures { Feeds F.Feed to.old to.new (quoted (name_of_kind kind)) result }
{
    feed_json_text(kind_name(kind), to)
}

fn feed_pit<F: Feed>(date: &Option<i64>, to: &mut F) -> Result<(), Stop>
    ensures { Feeds F.Feed to.old to.new (optional_text pit_text date.now) result }
{
    match date {
        None => to.piece(b""),
        Some(date) => feed_all(&[Part::Plain(b",\"pit\":"), Part::Moment(date)], to),
    }
}

fn feed_start<F: Feed>(date: &Option<i64>, to: &mut F) -> Result<(), Stop>
    ensures { Feeds F.Feed to.old to.new (optional_text start_text date.now) result }
{
    match date {
        None => to.piece(b""),
        Some(date) => feed_all(&[Part::Plain(b",\"startTime\":"), Part::Moment(date)], to),
    }
}

fn feed_end<F: Feed>(date: &Option<i64>, to: &mut F) -> Result<(), Stop>
    ensures { Feeds F.Feed to.old to.new (optional_text end_text date.now) result }
{
    match date {
        None => to.piece(b""),
        Some(date) => feed_all(&[Part::Plain(b",\"endTime\":"), Part::Moment(date)], to),
    }
}

fn feed_by_insertion<F: Feed>(by_insertion: bool, to: &mut F) -> Result<(), Stop>
    ensures { Feeds F.Feed to.old to.new (by_insertion_text by_insertion) result }
{
    if by_insertion {
        to.piece(b",\"insertionDate\":true")
    } else {
        to.piece(b"")
    }
}

fn feed_group<F: Feed>(group: u32, to: &mut F) -> Result<(), Stop>
    ensures { Feeds F.Feed to.old to.new (group_text group) result }
{
    if group == 0 {
        to.piece(b"")
    } else {
        feed_all(
            &[Part::Plain(b",\"groupBy\":"), Part::Number(group as u64)],
            to,
        )
    }
}

fn feed_expand<F: Feed>(expand: Expand, to: &mut F) -> Result<(), Stop>
    ensures { Feeds F.Feed to.old to.new (expand_text expand.volumes expand.effective) result }
{
    match (expand.volumes, expand.effective) {
        (true, true) => to.piece(b",\"expand\":[\"volumes\",\"effectiveVolumes\"]"),
        (true, false) => to.piece(b",\"expand\":[\"volumes\"]"),
        (false, true) => to.piece(b",\"expand\":[\"effectiveVolumes\"]"),
        (false, false) => to.piece(b""),
    }
}

/// Feeds the member with the filter, and nothing for the filter that all items pass.
fn feed_filter_member<F: Feed>(filter: &Filter, to: &mut F) -> Result<(), Stop>
    ensures { Feeds F.Feed to.old to.new (filter_member filter.now) result }
{
    match is_all(filter) {
        true => to.piece(b""),
        false => feed_present_filter(filter, to),
    }
}

/// Whether it is the filter that all items pass.
fn is_all(filter: &Filter) -> bool
    ensures { result ≡ is_all_items filter.now }
{
    match filter {
        Filter::All => true,
        Filter::Compare { .. } => false,
        Filter::Has(_) => false,
        Filter::Both(_) => false,
        Filter::Either(_) => false,
        Filter::Not(_) => false,
    }
}

fn feed_present_filter<F: Feed>(filter: &Filter, to: &mut F) -> Result<(), Stop>
    ensures { Feeds F.Feed to.old to.new (codes ",\"filter\":" ++ filter_text filter.now) result }
{
    to.piece(b",\"filter\":")?;
    feed_filter(filter, to)
}

/// Feeds a place in a list.
fn feed_after<F: Feed>(after: &After, to: &mut F) -> Result<(), Stop>
    ensures { Feeds F.Feed to.old to.new (after_text after.now) result }
{
    match after {
        After::Place(place) => Part::Number(*place).feed_to(to),
        After::Address(address) => address.feed_to(to),
        After::Pair { account, asset } => feed_all(
            &[
                TextPart::Base(Part::Plain(b"\"")),
                TextPart::Escaped(account.bytes()),
                TextPart::Escaped(b" "),
                TextPart::Escaped(asset.bytes()),
                TextPart::Base(Part::Plain(b"\"")),
            ],
            to,
        ),
    }
}
