//! The pieces of the text of a transaction or an account in a reply.

use lg_containers::Shared;
use lg_types::RecordPart;
use lg_views::{AccountVolumes, AssetVolumes};

/// A piece of the text of a transaction or an account.
#[derive(Clone, Copy)]
pub enum ViewPart<'a> {
    Record(RecordPart<'a>),
    /// `true` or `false`.
    Truth(bool),
    /// The member with the date of the revert, or nothing.
    RevertedAt(&'a Option<i64>),
    /// A member that has volumes of assets, or nothing.
    Assets(&'a [u8], &'a Option<AssetVolumes>),
    /// A member that has volumes of accounts, or nothing.
    Accounts(&'a [u8], &'a Option<Shared<AccountVolumes>>),
}
