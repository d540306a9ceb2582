//! What replies show of transactions, accounts and balances.

use crate::{AccountVolumes, AssetVolumes};
use lg_base::{NoMemory, Volumes};
use lg_containers::{Address, Asset, Duplicate, Meta, Reference, Shared};
use lg_types::Postings;
use std::alloc::Global;

/// A transaction, as a reply shows it.
#[derive(Drop)]
pub struct TransactionView {
    pub id: u64,
    pub postings: Postings,
    pub metadata: Meta,
    pub reference: Option<Reference>,
    /// The effective date, in microseconds since 1970-01-01T00:00:00Z.
    pub timestamp: i64,
    /// The date of its entry, in microseconds since 1970-01-01T00:00:00Z.
    pub inserted_at: i64,
    pub reverted: bool,
    /// The date of the reverting entry, there exactly where it is reverted.
    pub reverted_at: Option<i64>,
    /// The volumes of its accounts over all transactions of smaller ids.
    pub pre_commit_volumes: Option<Shared<AccountVolumes>>,
    /// The same with its own postings.
    pub post_commit_volumes: Option<Shared<AccountVolumes>>,
    /// The volumes of its accounts over all transactions whose pair of effective date and id is smaller.
    pub pre_commit_effective_volumes: Option<Shared<AccountVolumes>>,
    /// The same with its own postings.
    pub post_commit_effective_volumes: Option<Shared<AccountVolumes>>,
}

/// An account, as a reply shows it.
#[derive(Drop)]
pub struct AccountView {
    pub address: Address,
    pub metadata: Meta,
    /// By insertion date.
    pub volumes: Option<AssetVolumes>,
    pub effective_volumes: Option<AssetVolumes>,
}

/// The volumes of an account, or of a group of accounts, in one asset.
#[derive(Drop)]
pub struct VolumeItem {
    pub account: Address,
    pub asset: Asset,
    pub input: u128,
    pub output: u128,
    pub balance: i128,
}

/// A balance.
#[derive(Drop)]
pub struct BalanceItem {
    pub asset: Asset,
    pub balance: i128,
}

impl Duplicate for TransactionView {
    fn copy(&self, alloc: Global) -> Result<TransactionView, NoMemory> {
        Ok(TransactionView {
            id: self.id,
            postings: self.postings.copy(alloc)?,
            metadata: self.metadata.copy(alloc)?,
            reference: self.reference.copy(alloc)?,
            timestamp: self.timestamp,
            inserted_at: self.inserted_at,
            reverted: self.reverted,
            reverted_at: self.reverted_at.copy(alloc)?,
            pre_commit_volumes: self.pre_commit_volumes.copy(alloc)?,
            post_commit_volumes: self.post_commit_volumes.copy(alloc)?,
            pre_commit_effective_volumes: self.pre_commit_effective_volumes.copy(alloc)?,
            post_commit_effective_volumes: self.post_commit_effective_volumes.copy(alloc)?,
        })
    }
}

impl Duplicate for AccountView {
    fn copy(&self, alloc: Global) -> Result<AccountView, NoMemory> {
        Ok(AccountView {
            address: self.address.copy(alloc)?,
            metadata: self.metadata.copy(alloc)?,
            volumes: self.volumes.copy(alloc)?,
            effective_volumes: self.effective_volumes.copy(alloc)?,
        })
    }
}

impl Duplicate for VolumeItem {
    fn copy(&self, alloc: Global) -> Result<VolumeItem, NoMemory> {
        Ok(VolumeItem {
            account: self.account.copy(alloc)?,
            asset: self.asset.copy(alloc)?,
            input: self.input,
            output: self.output,
            balance: self.balance,
        })
    }
}

impl Duplicate for BalanceItem {
    fn copy(&self, alloc: Global) -> Result<BalanceItem, NoMemory> {
        Ok(BalanceItem {
            asset: self.asset.copy(alloc)?,
            balance: self.balance,
        })
    }
}
