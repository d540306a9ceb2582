//! Replies and what they show, and the definitions of what becomes of a call.
#![tactic(auto)]

mod answers;
mod decided;
mod items;
pub mod laws;
mod lines;
mod replies;
mod views;

pub use answers::Answer;
pub use decided::{Decided, Written};
pub use items::Items;
use lg_containers::{AddressGrammar, AssetGrammar, List};
use lg_maps::NameMap;
use lg_types::LedgerInfo;
pub use lg_types::{NoMemory, Volumes};
pub use lines::ScriptLine;
pub use replies::{Action, BulkItem, BulkView, Content, PageView, Reply};
pub use views::{AccountView, BalanceItem, TransactionView, VolumeItem};

/// Volumes of assets.
pub type AssetVolumes = NameMap<AssetGrammar, Volumes>;

/// Volumes of accounts and their assets.
pub type AccountVolumes = NameMap<AddressGrammar, AssetVolumes>;

/// Accounts, in the order of a page.
pub type AccountList = List<AccountView>;

/// Transactions, in the order of a page.
pub type TransactionList = List<TransactionView>;

/// Ledgers, in the order of a page.
pub type LedgerList = List<LedgerInfo>;

/// Volumes of pairs of account and asset, in the order of a page.
pub type VolumeList = List<VolumeItem>;

/// Balances of assets, in the byte order of the assets.
pub type BalanceList = List<BalanceItem>;

/// What became of the elements of a list.
pub type BulkList = List<BulkItem>;
