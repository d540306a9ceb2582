//! Feeding the texts of transactions and accounts.

ghost use Rattle.lg_base.specs.Feeding.{Feeds};
ghost use Rattle.lg_types.specs.CallTexts.{truth_text};
ghost use Rattle.lg_types.specs.PartTexts.{optional_text};
ghost use Rattle.lg_replies.specs.ViewParts.{view_part_text};
ghost use Rattle.lg_views.specs.ViewTexts.{reverted_at_text, assets_member, accounts_member, transaction_view_text, account_view_text};

use crate::shown::{Shown, feed_named};
use crate::view_parts::ViewPart;
use lg_base::{Feed, Stop};
use lg_containers::{Canonical, Shared, feed_all};
use lg_types::{Part, RecordPart};
use lg_views::{AccountView, AccountVolumes, AssetVolumes, TransactionView};

impl<'a> Canonical for ViewPart<'a> {
    ghost text = { view_part_text };

    fn feed_to<F: Feed>(&self, to: &mut F) -> Result<(), Stop> {
        match self {
            ViewPart::Record(part) => part.feed_to(to),
            ViewPart::Truth(truth) => feed_truth(*truth, to),
            ViewPart::RevertedAt(date) => feed_reverted_at(date, to),
            ViewPart::Assets(name, volumes) => feed_assets(name, volumes, to),
            ViewPart::Accounts(name, volumes) => feed_accounts(name, volumes, to),
        }
    }
}

/// Feeds `true` or `false`.
pub fn feed_truth<F: Feed>(truth: bool, to: &mut F) -> Result<(), Stop>
    ensures { Feeds F.Feed to.old to.new (truth_text truth) result }
{
    match truth {
        true => to.piece(b"true"),
        false => to.piece(b"false"),
    }
}

/// Feeds the member with the date of the revert, and nothing where there is none.
fn feed_reverted_at<F: Feed>(date: &Option<i64>, to: &mut F) -> Result<(), Stop>
    ensures { Feeds F.Feed to.old to.new (optional_text reverted_at_text date.now) result }
{
    match date {
        None => to.piece(b""),
        Some(date) => feed_all(&[Part::Plain(b",\"revertedAt\":"), Part::Moment(date)], to),
    }
}

/// Feeds a member with volumes of assets, and nothing where there are none.
fn feed_assets<F: Feed>(name: &[u8], volumes: &Option<AssetVolumes>, to: &mut F) -> Result<(), Stop>
    ensures { Feeds F.Feed to.old to.new (assets_member name.now volumes.now) result }
{
    match volumes {
        None => to.piece(b""),
        Some(volumes) => feed_named(name, volumes, to),
    }
}

/// Feeds a member with volumes of accounts, and nothing where there are none.
fn feed_accounts<F: Feed>(
    name: &[u8],
    volumes: &Option<Shared<AccountVolumes>>,
    to: &mut F,
) -> Result<(), Stop>
    ensures { Feeds F.Feed to.old to.new (accounts_member name.now volumes.now) result }
{
    match volumes {
        None => to.piece(b""),
        Some(volumes) => feed_named(name, volumes.get(), to),
    }
}

impl Shown for TransactionView {
    ghost shown = { transaction_view_text };

    fn show<F: Feed>(&self, to: &mut F) -> Result<(), Stop> {
        feed_all(
            &[
                ViewPart::Record(RecordPart::Base(Part::Plain(b"{\"id\":"))),
                ViewPart::Record(RecordPart::Base(Part::Number(self.id))),
                ViewPart::Record(RecordPart::Base(Part::Plain(b",\"postings\":"))),
                ViewPart::Record(RecordPart::Postings(&self.postings)),
                ViewPart::Record(RecordPart::Base(Part::Plain(b",\"metadata\":"))),
                ViewPart::Record(RecordPart::Meta(&self.metadata)),
                ViewPart::Record(RecordPart::Reference(&self.reference)),
                ViewPart::Record(RecordPart::Base(Part::Plain(b",\"timestamp\":"))),
                ViewPart::Record(RecordPart::Base(Part::Moment(&self.timestamp))),
                ViewPart::Record(RecordPart::Base(Part::Plain(b",\"insertedAt\":"))),
                ViewPart::Record(RecordPart::Base(Part::Moment(&self.inserted_at))),
                ViewPart::Record(RecordPart::Base(Part::Plain(b",\"reverted\":"))),
                ViewPart::Truth(self.reverted),
                ViewPart::RevertedAt(&self.reverted_at),
                ViewPart::Accounts(b",\"preCommitVolumes\":", &self.pre_commit_volumes),
                ViewPart::Accounts(b",\"postCommitVolumes\":", &self.post_commit_volumes),
                ViewPart::Accounts(
                    b",\"preCommitEffectiveVolumes\":",
                    &self.pre_commit_effective_volumes,
                ),
                ViewPart::Accounts(
                    b",\"postCommitEffectiveVolumes\":",
                    &self.post_commit_effective_volumes,
                ),
                ViewPart::Record(RecordPart::Base(Part::Plain(b"}"))),
            ],
            to,
        )
    }
}

impl Shown for AccountView {
    ghost shown = { account_view_text };

    fn show<F: Feed>(&self, to: &mut F) -> Result<(), Stop> {
        feed_all(
            &[
                ViewPart::Record(RecordPart::Base(Part::Plain(b"{\"address\":"))),
                ViewPart::Record(RecordPart::Base(Part::Address(&self.address))),
                ViewPart::Record(RecordPart::Base(Part::Plain(b",\"metadata\":"))),
                ViewPart::Record(RecordPart::Meta(&self.metadata)),
                ViewPart::Assets(b",\"volumes\":", &self.volumes),
                ViewPart::Assets(b",\"effectiveVolumes\":", &self.effective_volumes),
                ViewPart::Record(RecordPart::Base(Part::Plain(b"}"))),
            ],
            to,
        )
    }
}
