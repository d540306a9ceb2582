//! What one ledger's accounts of the stripe hold.

ghost use Rattle.std.specs.Prelude.{◌≡◌, ℕ, ◌+◌, ◌-◌, ◌<◌, ◌≤ℤ◌, List, [], ◌∷◌, ◌++◌, length, if◌then◌else◌, OnOk, OnErr, IfSome, IsSome, is_some};
ghost use Rattle.std.specs.Str.{bytes_eq};
ghost use Rattle.lg_containers.specs.NameTable as table;
ghost use Rattle.lg_shard.specs.Accounts.{slot_at, items_at, waiting_at, history_at, no_history, with_prepared, is_pair, one_if, only_if, SameHoldings, SameRoom, SameHistories, SameSlots};
ghost use Rattle.lg_meta.specs.MetaFold.{last_date};
ghost use Rattle.lg_shard.specs.Histories.{with_applied, without_last};
ghost use Rattle.lg_shard.specs.Holdings.{MovesFollow};

use crate::reserved::Reserved;
use lg_containers::{Address, AddressGrammar, Asset, AssetGrammar, NoMemory};
use lg_maps::NameMap;
use lg_meta::{MetaChange, MetaHistory};
use lg_moves::Move;
use lg_runs::Steps;
use std::alloc::Global;
use std::sync::ledger::Ledger;

/// What one account holds: the index of each of its assets, and the history of its metadata.
#[derive(Drop)]
pub struct AccountPart {
    pub(crate) assets: NameMap<AssetGrammar, Reserved>,
    pub(crate) history: MetaHistory,
}

/// The accounts of one ledger.
pub type Accounts = NameMap<AddressGrammar, AccountPart>;

impl AccountPart {
    /// No asset, no change.
    pub fn new(alloc: Global) -> AccountPart
        ensures assets { result.assets ≡ table.empty }
        ensures history { result.history ≡ no_history }
    {
        AccountPart {
            assets: NameMap::new(alloc),
            history: MetaHistory::new(alloc),
        }
    }
}

/// Makes room for one more prepared move of the account and the asset, in a slot that is made where there is none.
pub fn reserve_pair(
    alloc: Global,
    accounts: &mut Accounts,
    account: &Address,
    asset: &Asset,
) -> Result<(), NoMemory>
    ensures same { SameHoldings accounts.old accounts.new }
    ensures ok { OnOk result ((a b : List ℕ) → waiting_at accounts.new a b ≡ waiting_at accounts.old a b + one_if (is_pair account.now asset.now a b)) }
    ensures err { OnErr result (SameRoom accounts.old accounts.new) }
{
    let part = accounts.open(alloc, account, AccountPart::new(alloc))?;
    let slot = part.assets.open(alloc, asset, Reserved::new(alloc))?;
    slot.reserve()
}

/// Whether the account and the asset have a slot.
pub fn has_pair(accounts: &Accounts, account: &Address, asset: &Asset) -> bool
    ensures { result ≡ is_some (slot_at accounts.now account.now asset.now) }
{
    match accounts.find(account.bytes()) {
        Some(part) => part.assets.find(asset.bytes()).is_some(),
        None => false,
    }
}

/// Gives back the room for one prepared move in a slot that is there.
pub fn release_pair(accounts: &mut Accounts, account: &Address, asset: &Asset)
    requires { IsSome (slot_at accounts.old account.now asset.now) }
    ensures same { SameHoldings accounts.old accounts.new }
    ensures room { (a b : List ℕ) → waiting_at accounts.new a b ≡ waiting_at accounts.old a b - one_if (is_pair account.now asset.now a b) }
{
    let part = accounts.value_mut(account.bytes());
    let slot = part.assets.value_mut(asset.bytes());
    slot.release();
}

/// Applies a move that has room in its slot.
pub fn apply_pair<L: Ledger>(
    accounts: &mut Accounts,
    account: &Address,
    asset: &Asset,
    item: Move,
    steps: &mut Steps<L>,
)
    requires room { 0 < waiting_at accounts.old account.now asset.now }
    requires follows { MovesFollow (items_at accounts.old account.now asset.now) (item ∷ []) }
    ensures items { (a b : List ℕ) → items_at accounts.new a b ≡ items_at accounts.old a b ++ only_if (is_pair account.now asset.now a b) item }
    ensures room { (a b : List ℕ) → waiting_at accounts.new a b + one_if (is_pair account.now asset.now a b) ≡ waiting_at accounts.old a b }
    ensures histories { SameHistories accounts.old accounts.new }
{
    let part = accounts.value_mut(account.bytes());
    let slot = part.assets.value_mut(asset.bytes());
    slot.apply(item, steps);
}

/// Prepares a change of the account's metadata, as the last of those that are prepared.
pub fn prepare_change(
    alloc: Global,
    accounts: &mut Accounts,
    account: &Address,
    change: &MetaChange,
) -> Result<(), NoMemory>
    ensures slots { SameSlots accounts.old accounts.new }
    ensures ok { OnOk result ((a : List ℕ) → history_at accounts.new a ≡ (if bytes_eq account.now a then with_prepared (history_at accounts.old a) change.now else history_at accounts.old a)) }
    ensures err { OnErr result (SameHistories accounts.old accounts.new) }
{
    let part = accounts.open(alloc, account, AccountPart::new(alloc))?;
    part.history.prepare(change)
}

/// Gives up the change of the account's metadata that was prepared last, where one is prepared.
pub fn forget_change(accounts: &mut Accounts, account: &Address)
    ensures slots { SameSlots accounts.old accounts.new }
    ensures histories { (a : List ℕ) → history_at accounts.new a ≡ without_last (history_at accounts.old a) (one_if (bytes_eq account.now a)) }
{
    if accounts.find(account.bytes()).is_some() {
        let part = accounts.value_mut(account.bytes());
        part.history.forget_last();
    }
}

/// Applies the first prepared change of the account's metadata at the date. Takes no memory.
pub fn apply_change(accounts: &mut Accounts, account: &Address, date: &i64)
    requires room { 0 < length (history_at accounts.old account.now).prepared }
    requires later { IfSome (last_date (history_at accounts.old account.now).changes) (λ last. last ≤ℤ date.now) }
    ensures slots { SameSlots accounts.old accounts.new }
    ensures histories { (a : List ℕ) → history_at accounts.new a ≡ with_applied date.now (history_at accounts.old a) (one_if (bytes_eq account.now a)) }
{
    let part = accounts.value_mut(account.bytes());
    part.history.apply_first(*date);
}
