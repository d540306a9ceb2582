//! Feeding the texts of volumes and balances.

ghost use Rattle.std.specs.Prelude.{◌++◌, codes, decimal};
ghost use Rattle.std.specs.Fmt.{signed_decimal};
ghost use Rattle.lg_base.specs.Feeding.{Feeds};
ghost use Rattle.lg_base.specs.Volumes.{balance_of};
ghost use Rattle.lg_replies.specs.AmountParts.{amount_part_text};
ghost use Rattle.lg_views.specs.ViewTexts.{volumes_text, volume_item_text, balance_text};

use crate::amount_parts::AmountPart;
use crate::shown::Shown;
use itoa::Buffer;
use lg_base::{Feed, Stop, Volumes, feed_number};
use lg_containers::{Canonical, feed_all};
use lg_types::Part;
use lg_views::{BalanceItem, VolumeItem};

impl<'a> Canonical for AmountPart<'a> {
    ghost text = { amount_part_text };

    fn feed_to<F: Feed>(&self, to: &mut F) -> Result<(), Stop> {
        match self {
            AmountPart::Base(part) => part.feed_to(to),
            AmountPart::Number(number) => feed_decimal(*number, to),
            AmountPart::Balance(balance) => feed_balance(balance, to),
            AmountPart::BalanceOf(volumes) => feed_rest(volumes, to),
        }
    }
}

fn feed_decimal<F: Feed>(number: u128, to: &mut F) -> Result<(), Stop>
    ensures { Feeds F.Feed to.old to.new (decimal number) result }
{
    let mut buffer = Buffer::new();
    to.piece(buffer.format(number).as_bytes())
}

fn feed_balance<F: Feed>(balance: &i128, to: &mut F) -> Result<(), Stop>
    ensures { Feeds F.Feed to.old to.new (signed_decimal balance.now) result }
{
    feed_number(*balance, to)
}

/// Feeds the balance of volumes, with a minus where more went out than came in.
fn feed_rest<F: Feed>(volumes: &Volumes, to: &mut F) -> Result<(), Stop>
    ensures { Feeds F.Feed to.old to.new (signed_decimal (balance_of volumes.now)) result }
{
    if volumes.output <= volumes.input {
        return feed_decimal(volumes.input - volumes.output, to);
    }
    feed_negative(volumes.output - volumes.input, to)
}

/// Feeds a minus and a whole number in decimal.
fn feed_negative<F: Feed>(number: u128, to: &mut F) -> Result<(), Stop>
    ensures { Feeds F.Feed to.old to.new (codes "-" ++ decimal number) result }
{
    to.piece(b"-")?;
    feed_decimal(number, to)
}

impl Shown for Volumes {
    ghost shown = { volumes_text };

    fn show<F: Feed>(&self, to: &mut F) -> Result<(), Stop> {
        feed_all(
            &[
                AmountPart::Base(Part::Plain(b"{\"input\":")),
                AmountPart::Number(self.input),
                AmountPart::Base(Part::Plain(b",\"output\":")),
                AmountPart::Number(self.output),
                AmountPart::Base(Part::Plain(b",\"balance\":")),
                AmountPart::BalanceOf(self),
                AmountPart::Base(Part::Plain(b"}")),
            ],
            to,
        )
    }
}

impl Shown for VolumeItem {
    ghost shown = { volume_item_text };

    fn show<F: Feed>(&self, to: &mut F) -> Result<(), Stop> {
        feed_all(
            &[
                AmountPart::Base(Part::Plain(b"{\"account\":")),
                AmountPart::Base(Part::Address(&self.account)),
                AmountPart::Base(Part::Plain(b",\"asset\":")),
                AmountPart::Base(Part::Asset(&self.asset)),
                AmountPart::Base(Part::Plain(b",\"input\":")),
                AmountPart::Number(self.input),
                AmountPart::Base(Part::Plain(b",\"output\":")),
                AmountPart::Number(self.output),
                AmountPart::Base(Part::Plain(b",\"balance\":")),
                AmountPart::Balance(&self.balance),
                AmountPart::Base(Part::Plain(b"}")),
            ],
            to,
        )
    }
}

/// A member of an object of balances.
impl Shown for BalanceItem {
    ghost shown = { balance_text };

    fn show<F: Feed>(&self, to: &mut F) -> Result<(), Stop> {
        feed_all(
            &[
                AmountPart::Base(Part::Asset(&self.asset)),
                AmountPart::Base(Part::Plain(b":")),
                AmountPart::Balance(&self.balance),
            ],
            to,
        )
    }
}
