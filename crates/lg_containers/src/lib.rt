//! The containers that the ledger's types are made of: names with a grammar, lists, and maps from names.
#![tactic(auto)]

mod address;
mod asset;
mod bytes;
mod canonical;
mod counted;
mod duplicate;
mod fault;
mod feeding;
mod grammar;
mod list;
mod map;
mod name;
mod order;
mod reference;
mod shared;
mod short;
mod text;
pub mod utf8;

pub use address::{AddressGrammar, AddressState};
pub use asset::{AssetGrammar, AssetState};
pub use canonical::Canonical;
pub use counted::{BucketGrammar, CountedState, KeyGrammar, LedgerNameGrammar};
pub use duplicate::{Duplicate, copy_items};
pub use fault::{NameFault, NoMemory};
pub use feeding::{feed_all, feed_list, feed_members};
pub use grammar::Grammar;
pub use list::List;
pub use map::NameMap;
pub use name::Name;
pub use reference::{ReferenceGrammar, ReferenceState};
pub use shared::Shared;
pub use text::TextGrammar;

/// The address of an account, as `users:1:wallet`.
pub type Address = Name<AddressGrammar>;

/// The name of an asset, as `USD/2`.
pub type Asset = Name<AssetGrammar>;

/// The name of a ledger, as `default`.
pub type LedgerName = Name<LedgerNameGrammar>;

/// The bucket of a ledger, as `_default`.
pub type Bucket = Name<BucketGrammar>;

/// The idempotency key of a call.
pub type Key = Name<KeyGrammar>;

/// A text: any UTF-8.
pub type Text = Name<TextGrammar>;

/// The reference of a transaction.
pub type Reference = Name<ReferenceGrammar>;

/// Metadata: texts under names.
pub type Meta = NameMap<TextGrammar, Text>;

/// Metadata of accounts.
pub type AccountMeta = NameMap<AddressGrammar, Meta>;
