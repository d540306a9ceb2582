//! Values that are compared with fields.

ghost use Rattle.std.specs.Prelude.{◌≡◌, IsUtf8, IfOk, OnOk};
ghost use Rattle.lg_json.specs.Tree.{tree, Tree};
ghost use Rattle.lg_readings.specs.FilterReadings.{ShowsText, ShowsWhole, ShowsMoment, ShowsTruth, ShowsValue};
ghost use Rattle.lg_filters.specs.Parts.{IsRead};

use lg_base::NoMemory;
use lg_json::Json;
use lg_time::read_moment;
use lg_types::{Field, Text, Value};
use std::alloc::Global;

/// A copy of a text.
pub fn copied(alloc: Global, text: &Text) -> Result<Text, NoMemory>
    ensures value { IfOk result (λ copied. copied ≡ text.now) }
    ensures utf8 { OnOk result (IsUtf8 text.now) }
{
    Ok(Text::from_vec(Vec::from_slice(alloc, text.bytes())?))
}

fn text_value(alloc: Global, value: &Json) -> Result<Option<Value>, NoMemory>
    ensures { IfOk result (IsRead (ShowsText (tree value.now))) }
{
    match value {
        Json::Text(text) => Ok(Some(Value::Text(copied(alloc, text)?))),
        Json::Null | Json::Truth(_) | Json::Whole(_) | Json::List(_) | Json::Members(_) => {
            Ok(None)
        }
    }
}

fn whole_value(value: &Json) -> Option<Value>
    ensures { IsRead (ShowsWhole (tree value.now)) result }
{
    match value {
        Json::Whole(number) => Some(Value::Whole(*number)),
        Json::Null | Json::Truth(_) | Json::Text(_) | Json::List(_) | Json::Members(_) => None,
    }
}

fn moment_of_text(text: &Text) -> Option<Value>
    ensures { IsRead (ShowsMoment (Tree.text text.now)) result }
{
    match read_moment(text.bytes()) {
        Ok(moment) => Some(Value::Moment(moment)),
        Err(_) => None,
    }
}

fn moment_value(value: &Json) -> Option<Value>
    ensures { IsRead (ShowsMoment (tree value.now)) result }
{
    match value {
        Json::Text(text) => moment_of_text(text),
        Json::Null | Json::Truth(_) | Json::Whole(_) | Json::List(_) | Json::Members(_) => None,
    }
}

fn truth_value(value: &Json) -> Option<Value>
    ensures { IsRead (ShowsTruth (tree value.now)) result }
{
    match value {
        Json::Truth(truth) => Some(Value::Truth(*truth)),
        Json::Null | Json::Whole(_) | Json::Text(_) | Json::List(_) | Json::Members(_) => None,
    }
}

/// The value that is compared with the field, where it is of the field's kind.
pub fn read_value(alloc: Global, field: &Field, value: &Json) -> Result<Option<Value>, NoMemory>
    ensures { IfOk result (IsRead (ShowsValue field.now (tree value.now))) }
{
    match field {
        Field::Id | Field::Balance(_) => Ok(whole_value(value)),
        Field::Timestamp | Field::Date => Ok(moment_value(value)),
        Field::Reverted => Ok(truth_value(value)),
        Field::Address
        | Field::Account
        | Field::Source
        | Field::Destination
        | Field::Reference
        | Field::Metadata(_) => text_value(alloc, value),
    }
}
