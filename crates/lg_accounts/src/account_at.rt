//! One account of a ledger at a date.

ghost use Rattle.std.specs.Prelude.{◌≡◌, ◌||◌, true, false, Some, None, IfOk, OnOk, List, if◌then◌else◌};
ghost use Rattle.std.specs.List.{list_any};
ghost use Rattle.lg_meta.specs.MetaFold.{first_date, meta_at};
ghost use Rattle.lg_types.specs.Tally.{is_between, tally};
ghost use Rattle.lg_types.specs.Log.{log};
ghost use Rattle.lg_types.specs.Parts.{part_of};
ghost use Rattle.lg_types.specs.Stripes.{stripe};
ghost use Rattle.lg_types.specs.declared.classes.Class.TheVariants.{Account as AccountClass};
ghost use Rattle.lg_types.specs.declared.records.Event.{Event};
ghost use Rattle.lg_shard.specs.Shown.{ListsExactly, account_changes, is_moved};
ghost use Rattle.lg_views.specs.Reads.{is_account_at};
ghost use Rattle.lg_views.specs.Views.{account_view};
ghost use Rattle.lg_accounts.specs.Dates.{NeverFall, is_begun};
ghost use Rattle.lg_accounts.specs.Volumes.{counted_in, is_counted_in, put_if, volumes_in};

use lg_base::{NoMemory, Volumes};
use lg_containers::Meta;
use lg_meta::laws::metadata_by_changes;
use lg_moves::MoveIndex;
use lg_runs::Steps;
use lg_shard::Shard;
use lg_types::{Address, Asset, Duplicate, Expand, LedgerName};
use lg_views::{AccountView, AssetVolumes};
use std::alloc::Global;
use std::sync::ledger::Ledger;

/// An account of a ledger at a date, as the shard of its stripe knows it.
#[derive(Clone, Copy)]
pub struct AccountAt<'a> {
    pub shard: &'a Shard,
    pub ledger: &'a LedgerName,
    pub address: &'a Address,
    /// The date, in microseconds since 1970-01-01T00:00:00Z, and none for all that is known.
    pub pit: Option<i64>,
}

impl<'a> AccountAt<'a> {
    /// What a reply shows of the account, whose assets are given.
    pub fn view<L: Ledger>(
        &self,
        alloc: Global,
        assets: &[Asset],
        expand: Expand,
        steps: &mut Steps<L>,
    ) -> Result<AccountView, NoMemory>
        requires exactly { ListsExactly assets.now (is_moved self.now.shard.now.shares self.now.ledger.now self.now.address.now) }
        ensures { IfOk result (λ view. (events : List Event) → self.now.shard.now.shares ≡ part_of (stripe AccountClass self.now.ledger.now self.now.address.now) events → view ≡ account_view (log events self.now.ledger.now) self.now.pit expand self.now.address.now) }
    {
        metadata_by_changes();
        Ok(AccountView {
            address: self.address.copy(alloc)?,
            metadata: self.metadata(alloc)?,
            volumes: self.volumes_if(alloc, expand.volumes, assets, true, steps)?,
            effective_volumes: self.volumes_if(alloc, expand.effective, assets, false, steps)?,
        })
    }

    /// Whether the account, whose assets are given, is there at the date.
    pub fn is_there<L: Ledger>(&self, assets: &[Asset], steps: &mut Steps<L>) -> bool
        requires exactly { ListsExactly assets.now (is_moved self.now.shard.now.shares self.now.ledger.now self.now.address.now) }
        ensures { (events : List Event) → self.now.shard.now.shares ≡ part_of (stripe AccountClass self.now.ledger.now self.now.address.now) events → NeverFall (log events self.now.ledger.now) → result ≡ is_account_at (log events self.now.ledger.now) self.now.pit self.now.address.now }
    {
        self.is_seen(assets, steps)
    }

    // Whether a change of the account's metadata is dated by the date, or a move of one of the assets counts.
    fn is_seen<L: Ledger>(&self, assets: &[Asset], steps: &mut Steps<L>) -> bool
        ensures { result ≡ ((is_begun self.now.pit (first_date (account_changes self.now.shard.now.shares self.now.ledger.now self.now.address.now)) || list_any (is_counted_in self.now.shard.now.shares self.now.ledger.now self.now.address.now (is_between None self.now.pit true)) assets.now) || list_any (is_counted_in self.now.shard.now.shares self.now.ledger.now self.now.address.now (is_between None self.now.pit false)) assets.now) }
    {
        self.is_changed()
            || self.has_counted(assets, true, steps)
            || self.has_counted(assets, false, steps)
    }

    // Whether the first change of the account's metadata is dated by the date.
    fn is_changed(&self) -> bool
        ensures { result ≡ is_begun self.now.pit (first_date (account_changes self.now.shard.now.shares self.now.ledger.now self.now.address.now)) }
    {
        match self.shard.history(self.ledger, self.address) {
            Some(history) => is_begun_by(&self.pit, &history.first()),
            None => false,
        }
    }

    // Whether a move of one of the assets counts.
    fn has_counted<L: Ledger>(
        &self,
        assets: &[Asset],
        by_insertion: bool,
        steps: &mut Steps<L>,
    ) -> bool
        ensures { result ≡ list_any (is_counted_in self.now.shard.now.shares self.now.ledger.now self.now.address.now (is_between None self.now.pit by_insertion)) assets.now }
    {
        for asset in assets {
            if self.is_counted(asset, by_insertion, steps) {
                return true;
            }
        }
        false
    }

    // Whether a move of the asset counts.
    fn is_counted<L: Ledger>(&self, asset: &Asset, by_insertion: bool, steps: &mut Steps<L>) -> bool
        ensures { result ≡ is_counted_in self.now.shard.now.shares self.now.ledger.now self.now.address.now (is_between None self.now.pit by_insertion) asset.now }
    {
        match self.shard.index(self.ledger, self.address, asset) {
            Some(index) => index.any(None, self.pit, by_insertion, steps),
            None => false,
        }
    }

    // The account's metadata.
    fn metadata(&self, alloc: Global) -> Result<Meta, NoMemory>
        ensures { IfOk result (λ meta. meta ≡ meta_at self.now.pit (account_changes self.now.shard.now.shares self.now.ledger.now self.now.address.now)) }
    {
        match self.shard.history(self.ledger, self.address) {
            Some(history) => history.copy_at(self.pit),
            None => Ok(Meta::new(alloc)),
        }
    }

    // The account's volumes by insertion or by effective date, where they are wanted.
    fn volumes_if<L: Ledger>(
        &self,
        alloc: Global,
        wanted: bool,
        assets: &[Asset],
        by_insertion: bool,
        steps: &mut Steps<L>,
    ) -> Result<Option<AssetVolumes>, NoMemory>
        ensures { IfOk result (λ volumes. volumes ≡ (if wanted then Some (volumes_in self.now.shard.now.shares self.now.ledger.now self.now.address.now (is_between None self.now.pit by_insertion) assets.now) else None)) }
    {
        if !wanted {
            return Ok(None);
        }
        let volumes = self.volumes(alloc, assets, by_insertion, steps)?;
        Ok(Some(volumes))
    }

    // The account's volumes by insertion or by effective date, over the assets of which a move counts.
    fn volumes<L: Ledger>(
        &self,
        alloc: Global,
        assets: &[Asset],
        by_insertion: bool,
        steps: &mut Steps<L>,
    ) -> Result<AssetVolumes, NoMemory>
        ensures { IfOk result (λ volumes. volumes ≡ volumes_in self.now.shard.now.shares self.now.ledger.now self.now.address.now (is_between None self.now.pit by_insertion) assets.now) }
    {
        let mut volumes = AssetVolumes::new(alloc);
        for asset in assets {
            let counted = self.counted(asset, by_insertion, steps);
            put_counted(alloc, &mut volumes, asset, counted)?;
        }
        Ok(volumes)
    }

    // What the moves of the asset that count add up to, where one counts.
    fn counted<L: Ledger>(
        &self,
        asset: &Asset,
        by_insertion: bool,
        steps: &mut Steps<L>,
    ) -> Option<Volumes>
        ensures { result ≡ (if is_counted_in self.now.shard.now.shares self.now.ledger.now self.now.address.now (is_between None self.now.pit by_insertion) asset.now then Some (counted_in self.now.shard.now.shares self.now.ledger.now self.now.address.now (is_between None self.now.pit by_insertion) asset.now) else None) }
    {
        match self.shard.index(self.ledger, self.address, asset) {
            Some(index) => counted_of(index, self.pit, by_insertion, steps),
            None => None,
        }
    }
}

// Whether there is a first date, and it is at most the given one.
fn is_begun_by(pit: &Option<i64>, first: &Option<i64>) -> bool
    ensures { result ≡ is_begun pit.now first.now }
{
    match (first, pit) {
        (Some(first), Some(pit)) => *first <= *pit,
        (Some(_), None) => true,
        (None, _) => false,
    }
}

// Puts what was counted of the asset.
fn put_counted(
    alloc: Global,
    volumes: &mut AssetVolumes,
    asset: &Asset,
    counted: Option<Volumes>,
) -> Result<(), NoMemory>
    ensures { OnOk result (volumes.new ≡ put_if volumes.old asset.now counted) }
{
    match counted {
        Some(counted) => volumes.put(asset.copy(alloc)?, counted),
        None => Ok(()),
    }
}

// What the moves up to the date add up to, where there is one.
fn counted_of<L: Ledger>(
    index: &MoveIndex,
    pit: Option<i64>,
    by_insertion: bool,
    steps: &mut Steps<L>,
) -> Option<Volumes>
    ensures { result ≡ (if list_any (is_between None pit by_insertion) index.now.items then Some (tally (is_between None pit by_insertion) index.now.items) else None) }
{
    if index.any(None, pit, by_insertion, steps) {
        Some(index.between(None, pit, by_insertion, steps))
    } else {
        None
    }
}
