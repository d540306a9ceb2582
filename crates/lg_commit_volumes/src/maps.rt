//! The maps of volumes.

ghost use Rattle.std.specs.Prelude.{◌≡◌, OnOk, IfOk, IsTrue, is_some};
ghost use Rattle.lg_containers.specs.NameTable as table;
ghost use Rattle.lg_views.specs.Pairs.{put_pair};
ghost use Rattle.lg_book.specs.FirstVolumes.{no_volumes};
ghost use Rattle.lg_commit_volumes.specs.EffectiveMaps.{maps_seen, IsAlike, FitsIn, effective_with};
ghost use Rattle.lg_commit_volumes.specs.Maps.{pair_in, put_four};

use crate::pairs::PairVolumes;
use lg_base::{NoMemory, Volumes};
use lg_book::FirstVolumes;
use lg_containers::Shared;
use lg_types::{Address, Asset, Duplicate};
use lg_views::{AccountVolumes, AssetVolumes};
use std::alloc::Global;
use std::marker::Model;

/// Whether the map has volumes of the account and the asset.
fn has_pair(map: &AccountVolumes, account: &Address, asset: &Asset) -> bool
    ensures { result ≡ is_some (pair_in map.now account.now asset.now) }
{
    match map.find(account.bytes()) {
        Some(assets) => assets.find(asset.bytes()).is_some(),
        None => false,
    }
}

/// The maps in the order of effective dates.
#[derive(Drop)]
pub struct EffectiveMaps {
    pub(crate) pre_commit_volumes: AccountVolumes,
    pub(crate) post_commit_volumes: AccountVolumes,
}

/// The four maps of volumes while they are filled, seen as first volumes. The two in the order of effective dates are
/// those in the order of entry until they differ.
#[derive(Drop)]
pub struct VolumeMaps {
    pre_commit_volumes: AccountVolumes,
    post_commit_volumes: AccountVolumes,
    effective: Option<EffectiveMaps>,
}

impl Model for VolumeMaps {
    ghost use Rattle.lg_book.specs.declared.volumes.FirstVolumes.{FirstVolumes};
    ghost use Rattle.lg_commit_volumes.specs.EffectiveMaps.{maps_seen};

    ghost Value = { FirstVolumes };

    ghost view = { λ m. maps_seen m.pre_commit_volumes m.post_commit_volumes m.effective };
}

impl VolumeMaps {
    /// Maps without volumes.
    pub fn new(alloc: Global) -> VolumeMaps
        ensures { result ≡ no_volumes }
    {
        VolumeMaps {
            pre_commit_volumes: AccountVolumes::new(alloc),
            post_commit_volumes: AccountVolumes::new(alloc),
            effective: None,
        }
    }

    /// Whether the first of the maps has volumes of the account and the asset.
    pub fn has_pair(&self, account: &Address, asset: &Asset) -> bool
        ensures { result ≡ is_some (pair_in self.now.pre_commit_volumes account.now asset.now) }
    {
        has_pair(&self.pre_commit_volumes, account, asset)
    }

    /// Puts the four volumes of the account and the asset into the maps.
    pub fn put(
        &mut self,
        alloc: Global,
        account: &Address,
        asset: &Asset,
        volumes: &PairVolumes,
    ) -> Result<(), NoMemory>
        ensures { OnOk result (self.new ≡ put_four self.old account.now asset.now volumes.now) }
    {
        let pre = &self.pre_commit_volumes;
        split(
            alloc,
            pre,
            &self.post_commit_volumes,
            &mut self.effective,
            volumes,
        )?;
        put_effective(alloc, &mut self.effective, account, asset, volumes)?;
        let pre = &mut self.pre_commit_volumes;
        put_volumes(alloc, pre, account, asset, volumes.pre_commit)?;
        let post = &mut self.post_commit_volumes;
        put_volumes(alloc, post, account, asset, volumes.post_commit)
    }

    /// The maps as first volumes, which have several owners.
    pub fn shared(self, alloc: Global) -> Result<FirstVolumes, NoMemory>
        ensures { IfOk result (λ volumes. volumes ≡ self) }
    {
        let pre = Shared::new(alloc, self.pre_commit_volumes)?;
        let post = Shared::new(alloc, self.post_commit_volumes)?;
        match self.effective {
            None => Ok(FirstVolumes {
                pre_commit_effective_volumes: pre.share()?,
                post_commit_effective_volumes: post.share()?,
                pre_commit_volumes: pre,
                post_commit_volumes: post,
            }),
            Some(maps) => Ok(FirstVolumes {
                pre_commit_volumes: pre,
                post_commit_volumes: post,
                pre_commit_effective_volumes: Shared::new(alloc, maps.pre_commit_volumes)?,
                post_commit_effective_volumes: Shared::new(alloc, maps.post_commit_volumes)?,
            }),
        }
    }
}

/// Whether the volumes are the same in both orders.
fn is_alike(volumes: &PairVolumes) -> bool
    ensures { IsTrue result → IsAlike volumes.now }
{
    is_same(&volumes.pre_commit, &volumes.pre_commit_effective)
        && is_same(&volumes.post_commit, &volumes.post_commit_effective)
}

fn is_same(first: &Volumes, second: &Volumes) -> bool
    ensures { IsTrue result → second.now ≡ first.now }
{
    first.input == second.input && first.output == second.output
}

/// Gives the order of effective dates maps of its own, where these volumes differ in it and there are none yet.
fn split(
    alloc: Global,
    pre: &AccountVolumes,
    post: &AccountVolumes,
    effective: &mut Option<EffectiveMaps>,
    volumes: &PairVolumes,
) -> Result<(), NoMemory>
    ensures seen { OnOk result (maps_seen pre.now post.now effective.new ≡ maps_seen pre.now post.now effective.old) }
    ensures fits { OnOk result (FitsIn volumes.now effective.new) }
{
    match effective {
        Some(_) => Ok(()),
        None => {
            if !is_alike(volumes) {
                *effective = Some(EffectiveMaps {
                    pre_commit_volumes: pre.copy(alloc)?,
                    post_commit_volumes: post.copy(alloc)?,
                });
            }
            Ok(())
        }
    }
}

/// Puts the volumes into the maps in the order of effective dates, where there are such.
fn put_effective(
    alloc: Global,
    effective: &mut Option<EffectiveMaps>,
    account: &Address,
    asset: &Asset,
    volumes: &PairVolumes,
) -> Result<(), NoMemory>
    ensures { OnOk result (effective.new ≡ effective_with account.now asset.now volumes.now effective.old) }
{
    match effective {
        None => Ok(()),
        Some(maps) => {
            let pre = &mut maps.pre_commit_volumes;
            put_volumes(alloc, pre, account, asset, volumes.pre_commit_effective)?;
            let post = &mut maps.post_commit_volumes;
            put_volumes(alloc, post, account, asset, volumes.post_commit_effective)
        }
    }
}

fn put_volumes(
    alloc: Global,
    map: &mut AccountVolumes,
    account: &Address,
    asset: &Asset,
    volumes: Volumes,
) -> Result<(), NoMemory>
    ensures { OnOk result (map.new ≡ put_pair map.old account.now asset.now volumes) }
{
    let assets = map.open(alloc, account, AssetVolumes::new(alloc))?;
    put_asset(alloc, assets, asset, volumes)
}

fn put_asset(
    alloc: Global,
    assets: &mut AssetVolumes,
    asset: &Asset,
    volumes: Volumes,
) -> Result<(), NoMemory>
    ensures { OnOk result (assets.new ≡ table.insert assets.old asset.now volumes) }
{
    assets.put(asset.copy(alloc)?, volumes)
}
