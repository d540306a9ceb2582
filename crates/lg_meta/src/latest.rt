//! The latest change of a name.

ghost use Rattle.std.specs.Prelude.{◌≡◌, filter, slice_get, None};
ghost use Rattle.std.specs.Option.{option_copied};
ghost use Rattle.std.specs.List.Sorted.{IsPartitionedBy};
ghost use Rattle.lg_types.specs.Tally.{is_to as moment_to};
ghost use Rattle.lg_meta.specs.Index.{is_there_by, value_there, last_value};

use crate::change::{DatedChange, value_of};
use lg_containers::Text;

// Whether the moment is at most the date, always where no date is given.
fn is_to(date: &Option<i64>, moment: &i64) -> bool
    ensures { result ≡ moment_to date.now moment.now }
{
    match date {
        None => true,
        Some(date) => *moment <= *date,
    }
}

// Whether a change is there, dated at most at the date.
fn is_applied_by(applied: &[DatedChange], date: &Option<i64>, place: usize) -> bool
    ensures { result ≡ is_there_by date.now (slice_get applied.now place) }
{
    match applied.get(place) {
        None => false,
        Some(dated) => is_to(date, &dated.date),
    }
}

// What the change at the place makes of the name.
fn value_at<'a>(applied: &'a [DatedChange], place: usize, name: &[u8]) -> Option<&'a Text>
    ensures { option_copied result ≡ value_there name.now (slice_get applied.now place) }
{
    match applied.get(place) {
        None => None,
        Some(dated) => value_of(&dated.change, name),
    }
}

/// What the last of the changes at the places makes of the name, of those that are dated at most at the date.
pub(crate) fn latest<'a>(
    applied: &'a [DatedChange],
    places: &[usize],
    name: &[u8],
    date: &Option<i64>,
) -> Option<&'a Text>
    requires { IsPartitionedBy (λ place. is_there_by date.now (slice_get applied.now place)) places.now }
    ensures { option_copied result ≡ last_value (λ place. value_there name.now (slice_get applied.now place)) None (filter (λ place. is_there_by date.now (slice_get applied.now place)) places.now) }
{
    let count = places.partition_point(|place| is_applied_by(applied, date, *place));
    if count == 0 {
        None
    } else {
        value_at(applied, places[count - 1], name)
    }
}
