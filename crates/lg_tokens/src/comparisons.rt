//! Feeding comparisons: an object of an operator, and in it an object of a field with what it is compared with.

ghost use Rattle.std.specs.Prelude.{codes, ◌++◌};
ghost use Rattle.lg_base.specs.Feeding.{Feeds};
ghost use Rattle.lg_base.specs.Texts.{quoted};
ghost use Rattle.lg_types.specs.CallTexts.{truth_text};
ghost use Rattle.lg_views.specs.Tokens.{field_name, in_brackets, value_text, one_member};
ghost use Rattle.lg_tokens.specs.TextParts.{text_part_text, compared_part_text, opening};

use crate::text_parts::{ComparedPart, TextPart};
use lg_base::{Feed, Stop, feed_escaped, feed_json_text, feed_number};
use lg_containers::{Canonical, feed_all};
use lg_types::{Field, Part, Value};

impl<'a> Canonical for TextPart<'a> {
    ghost text = { text_part_text };

    fn feed_to<F: Feed>(&self, to: &mut F) -> Result<(), Stop> {
        match self {
            TextPart::Base(part) => part.feed_to(to),
            TextPart::Quoted(bytes) => feed_json_text(bytes, to),
            TextPart::Escaped(bytes) => feed_escaped(bytes, to),
        }
    }
}

impl<'a> Canonical for ComparedPart<'a> {
    ghost text = { compared_part_text };

    fn feed_to<F: Feed>(&self, to: &mut F) -> Result<(), Stop> {
        match self {
            ComparedPart::Text(part) => part.feed_to(to),
            ComparedPart::Field(field) => feed_field(field, to),
            ComparedPart::Value(value) => feed_value(value, to),
        }
    }
}

/// Feeds the name of a field as a string.
fn feed_field<F: Feed>(field: &Field, to: &mut F) -> Result<(), Stop>
    ensures { Feeds F.Feed to.old to.new (quoted (field_name field.now)) result }
{
    match field {
        Field::Address => feed_json_text(b"address", to),
        Field::Account => feed_json_text(b"account", to),
        Field::Source => feed_json_text(b"source", to),
        Field::Destination => feed_json_text(b"destination", to),
        Field::Reference => feed_json_text(b"reference", to),
        Field::Id => feed_json_text(b"id", to),
        Field::Timestamp => feed_json_text(b"timestamp", to),
        Field::Date => feed_json_text(b"date", to),
        Field::Reverted => feed_json_text(b"reverted", to),
        Field::Metadata(name) => feed_in_brackets(b"metadata", name.bytes(), to),
        Field::Balance(asset) => feed_in_brackets(b"balance", asset.bytes(), to),
    }
}

/// Feeds a word with a name in brackets after it, as a string.
fn feed_in_brackets<'x, F: Feed>(word: &'x [u8], name: &'x [u8], to: &mut F) -> Result<(), Stop>
    ensures { Feeds F.Feed to.old to.new (quoted (in_brackets word.now name.now)) result }
{
    feed_all(
        &[
            TextPart::Base(Part::Plain(b"\"")),
            TextPart::Escaped(word),
            TextPart::Escaped(b"["),
            TextPart::Escaped(name),
            TextPart::Escaped(b"]"),
            TextPart::Base(Part::Plain(b"\"")),
        ],
        to,
    )
}

/// Feeds what a field is compared with.
fn feed_value<F: Feed>(value: &Value, to: &mut F) -> Result<(), Stop>
    ensures { Feeds F.Feed to.old to.new (value_text value.now) result }
{
    match value {
        Value::Text(text) => feed_json_text(text.bytes(), to),
        Value::Whole(number) => feed_number(*number, to),
        Value::Moment(moment) => Part::Moment(moment).feed_to(to),
        Value::Truth(truth) => feed_truth(*truth, to),
    }
}

/// Feeds `true` or `false`.
fn feed_truth<F: Feed>(truth: bool, to: &mut F) -> Result<(), Stop>
    ensures { Feeds F.Feed to.old to.new (truth_text truth) result }
{
    match truth {
        true => to.piece(b"true"),
        false => to.piece(b"false"),
    }
}

/// Feeds how an object of one member begins: `{`, the member's name and `:`.
pub fn feed_opening<F: Feed>(name: &[u8], to: &mut F) -> Result<(), Stop>
    ensures { Feeds F.Feed to.old to.new (opening name.now) result }
{
    to.piece(b"{")?;
    feed_json_text(name, to)?;
    to.piece(b":")
}

/// Feeds an object of a field with what it is compared with.
fn feed_compared<'x, F: Feed>(field: &'x Field, value: &'x Value, to: &mut F) -> Result<(), Stop>
    ensures { Feeds F.Feed to.old to.new (one_member (field_name field.now) (value_text value.now)) result }
{
    feed_all(
        &[
            ComparedPart::Text(TextPart::Base(Part::Plain(b"{"))),
            ComparedPart::Field(field),
            ComparedPart::Text(TextPart::Base(Part::Plain(b":"))),
            ComparedPart::Value(value),
            ComparedPart::Text(TextPart::Base(Part::Plain(b"}"))),
        ],
        to,
    )
}

/// Feeds a comparison by the operator of this name.
pub fn feed_comparison<'x, F: Feed>(
    operator: &[u8],
    field: &'x Field,
    value: &'x Value,
    to: &mut F,
) -> Result<(), Stop>
    ensures { Feeds F.Feed to.old to.new (one_member operator.now (one_member (field_name field.now) (value_text value.now))) result }
{
    feed_opening(operator, to)?;
    feed_compared(field, value, to)?;
    to.piece(b"}")
}

/// Feeds the test that metadata have a name.
pub fn feed_existence<F: Feed>(name: &[u8], to: &mut F) -> Result<(), Stop>
    ensures { Feeds F.Feed to.old to.new (one_member (codes "$exists") (one_member (codes "metadata") (quoted name.now))) result }
{
    feed_opening(b"$exists", to)?;
    feed_opening(b"metadata", to)?;
    feed_json_text(name, to)?;
    to.piece(b"}}")
}
