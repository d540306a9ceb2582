//! The lines of a made script.

ghost use Rattle.std.specs.Prelude.{◌≡◌, ◌==◌, ◌<◌, ◌-◌, ◌/◌, ◌%◌, pos};
ghost use Rattle.lg_base.specs.Feeding.{Feeds};
ghost use Rattle.lg_generator.specs.Made.{moment_at, price_at, fee_at, timestamp_at, opening, revert_line, sale_line, postings_member, timestamp_member, line_of};

use lg_base::{Feed, Stop};
use lg_containers::feed_all;
use lg_types::Part;

/// Feeds the line at the place, counted from 0; a sale's customer and date are drawn from the number.
pub fn feed_line<F: Feed>(place: u32, drawn: u32, to: &mut F) -> Result<(), Stop>
    requires { place < 100000 }
    ensures { Feeds F.Feed to.old to.new (line_of place drawn) result }
{
    if place % 10 == 9 {
        feed_revert(place, to)
    } else {
        feed_sale(place, drawn, to)
    }
}

fn feed_revert<F: Feed>(place: u32, to: &mut F) -> Result<(), Stop>
    requires { place < 100000 }
    ensures { Feeds F.Feed to.old to.new (revert_line place) result }
{
    feed_opening(place, to)?;
    feed_all(
        &[
            Part::Plain(b"/"),
            Part::Number(reverted(place)),
            Part::Plain(b"/revert\"}\n"),
        ],
        to,
    )
}

fn feed_sale<F: Feed>(place: u32, drawn: u32, to: &mut F) -> Result<(), Stop>
    requires { place < 100000 }
    ensures { Feeds F.Feed to.old to.new (sale_line place drawn) result }
{
    feed_opening(place, to)?;
    feed_postings(place, drawn, to)?;
    feed_timestamp(place, drawn, to)?;
    to.piece(b"}}\n")
}

/// Feeds the members that every line begins with.
fn feed_opening<F: Feed>(place: u32, to: &mut F) -> Result<(), Stop>
    requires { place < 100000 }
    ensures { Feeds F.Feed to.old to.new (opening place) result }
{
    let now = moment(place);
    feed_all(
        &[
            Part::Plain(b"{\"caller\":"),
            Part::Number(caller(place)),
            Part::Plain(b",\"phase\":"),
            Part::Number(phase(place)),
            Part::Plain(b",\"now\":"),
            Part::Moment(&now),
            Part::Plain(b",\"method\":\"POST\",\"path\":\"/v2/default/transactions"),
        ],
        to,
    )
}

/// Feeds the postings of a sale.
fn feed_postings<F: Feed>(place: u32, drawn: u32, to: &mut F) -> Result<(), Stop>
    requires { place < 100000 }
    ensures { Feeds F.Feed to.old to.new (postings_member place drawn) result }
{
    let customer = customer(drawn);
    let price = price(place);
    let fee = fee(place);
    feed_all(
        &[
            Part::Plain(
                b"\",\"body\":{\"postings\":[{\"source\":\"world\",\"destination\":\"customers:",
            ),
            Part::Number(customer),
            Part::Plain(b"\",\"amount\":"),
            Part::Number(price),
            Part::Plain(b",\"asset\":\"USD/2\"},{\"source\":\"customers:"),
            Part::Number(customer),
            Part::Plain(b"\",\"destination\":\"shop:sales\",\"amount\":"),
            Part::Number(price - fee),
            Part::Plain(b",\"asset\":\"USD/2\"},{\"source\":\"customers:"),
            Part::Number(customer),
            Part::Plain(b"\",\"destination\":\"shop:fees\",\"amount\":"),
            Part::Number(fee),
            Part::Plain(b",\"asset\":\"USD/2\"}]"),
        ],
        to,
    )
}

/// Feeds the effective date of a sale, where it has one.
fn feed_timestamp<F: Feed>(place: u32, drawn: u32, to: &mut F) -> Result<(), Stop>
    requires { place < 100000 }
    ensures { Feeds F.Feed to.old to.new (timestamp_member place drawn) result }
{
    if is_dated(drawn) {
        let timestamp = timestamp(place, drawn);
        feed_all(
            &[Part::Plain(b",\"timestamp\":"), Part::Moment(&timestamp)],
            to,
        )
    } else {
        to.piece(b"")
    }
}

/// Whether a sale has an effective date.
fn is_dated(drawn: u32) -> bool
    ensures { result ≡ (drawn % 8 == 0) }
{
    drawn % 8 == 0
}

/// The caller of a line: four take turns.
fn caller(place: u32) -> u64
    ensures { result ≡ place % 4 }
{
    u64::from(place % 4)
}

/// The phase of a line: a hundred lines each.
fn phase(place: u32) -> u64
    ensures { result ≡ place / 100 }
{
    u64::from(place / 100)
}

/// The transaction that a revert names.
fn reverted(place: u32) -> u64
    ensures { result ≡ place - 4 }
{
    u64::from(place.saturating_sub(4))
}

/// The number of a sale's customer.
fn customer(drawn: u32) -> u64
    ensures { result ≡ drawn % 1000 }
{
    u64::from(drawn % 1000)
}

/// What a sale takes from its customer, in cents.
fn price(place: u32) -> u64
    ensures { result ≡ price_at place }
{
    u64::from(1000 + 10 * (place % 100))
}

/// The part of the price that is the fee, in cents.
fn fee(place: u32) -> u64
    ensures { result ≡ fee_at place }
{
    u64::from(10 + place % 10)
}

/// The moment of a line, in microseconds since 1970-01-01T00:00:00Z.
fn moment(place: u32) -> i64
    requires { place < 100000 }
    ensures { result ≡ pos (moment_at place) }
{
    (1_704_067_200_000_000 + 260_000_000 * u64::from(place)) as i64
}

/// The effective date of a sale, up to a day before its moment.
fn timestamp(place: u32, drawn: u32) -> i64
    requires { place < 100000 }
    ensures { result ≡ pos (timestamp_at place drawn) }
{
    (1_704_067_200_000_000 + 260_000_000 * u64::from(place)
        - u64::from(drawn / 8 % 86400) * 1_000_000) as i64
}
