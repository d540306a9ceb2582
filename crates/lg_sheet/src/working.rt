//! Volumes that a sheet works out, in place.

ghost use Rattle.std.specs.Prelude.{◌≡◌, ◌+◌, ◌^◌, ◌<◌, ◌≤◌, ℕ, List, ◌&&◌, if◌then◌else◌, IsSome, OnOk, OnErr, All};
ghost use Rattle.std.specs.Str.{bytes_eq};
ghost use Rattle.std.specs.Option.{unwrap_or};
ghost use Rattle.lg_base.specs.Volumes.{sum_of};
ghost use Rattle.lg_containers.specs.NameTable as table;
ghost use Rattle.lg_types.specs.Moves.{total};
ghost use Rattle.lg_types.specs.Trial.{tried_moves};
ghost use Rattle.lg_sheet.specs.Lines.{posting_of};
ghost use Rattle.lg_sheet.specs.Working.{worked, no_volumes, IsOpen, StaysOpen, SameVolumes};
ghost use Rattle.lg_sheet.specs.Trials.{OfBoth};

use crate::lines::Line;
use lg_base::NoMemory;
use lg_containers::{AddressGrammar, AssetGrammar};
use lg_maps::NameMap;
use lg_types::{Address, Asset, Posting, Volumes};
use std::alloc::Global;

/// For each account the volumes of its assets.
pub type Working = NameMap<AddressGrammar, NameMap<AssetGrammar, Volumes>>;

/// The volumes of the account and the asset, nothing where there are none.
pub fn volumes_of(working: &Working, account: &Address, asset: &Asset) -> Volumes
    ensures { result ≡ worked working.now account.now asset.now }
{
    match working.find(account.bytes()) {
        Some(assets) => asset_volumes(assets, asset),
        None => Volumes::zero(),
    }
}

fn asset_volumes(assets: &NameMap<AssetGrammar, Volumes>, asset: &Asset) -> Volumes
    ensures { result ≡ unwrap_or (table.get assets.now asset.now) no_volumes }
{
    match assets.find(asset.bytes()) {
        Some(volumes) => *volumes,
        None => Volumes::zero(),
    }
}

/// Makes places for the accounts of the postings.
pub fn open_all(alloc: Global, working: &mut Working, postings: &[Posting]) -> Result<(), NoMemory>
    ensures same { SameVolumes working.old working.new }
    ensures places { OnOk result (All (OfBoth (IsOpen working.new)) postings.now) }
{
    for posting in postings {
        open_place(alloc, working, &posting.source, &posting.asset)?;
        open_place(alloc, working, &posting.destination, &posting.asset)?;
    }
    Ok(())
}

/// Makes a place for the account and the asset, where there is none.
fn open_place(
    alloc: Global,
    working: &mut Working,
    account: &Address,
    asset: &Asset,
) -> Result<(), NoMemory>
    ensures same { SameVolumes working.old working.new }
    ensures stays { StaysOpen working.old working.new }
    ensures places { OnOk result (IsOpen working.new account.now asset.now) }
{
    let assets = working.open(alloc, account, NameMap::new(alloc))?;
    open_asset(alloc, assets, asset)
}

fn open_asset(
    alloc: Global,
    assets: &mut NameMap<AssetGrammar, Volumes>,
    asset: &Asset,
) -> Result<(), NoMemory>
    ensures ok { OnOk result (assets.new ≡ table.insert assets.old asset.now (unwrap_or (table.get assets.old asset.now) no_volumes)) }
    ensures err { OnErr result (assets.new ≡ assets.old) }
{
    assets.open(alloc, asset, Volumes::zero())?;
    Ok(())
}

/// Sets the volumes of the account and the asset.
fn set_volumes(working: &mut Working, account: &Address, asset: &Asset, volumes: Volumes)
    requires { IsOpen working.old account.now asset.now }
    ensures set { (b y : List ℕ) → worked working.new b y ≡ (if bytes_eq account.now b && bytes_eq asset.now y then volumes else worked working.old b y) }
    ensures stays { StaysOpen working.old working.new }
{
    set_asset(working.value_mut(account.bytes()), asset, volumes);
}

fn set_asset(assets: &mut NameMap<AssetGrammar, Volumes>, asset: &Asset, volumes: Volumes)
    requires { IsSome (table.get assets.old asset.now) }
    ensures { assets.new ≡ table.insert assets.old asset.now volumes }
{
    *assets.value_mut(asset.bytes()) = volumes;
}

/// Books the amount of the posting.
pub fn add_line(working: &mut Working, line: &Line<'_>)
    requires source { IsOpen working.old line.now.source.now line.now.asset.now }
    requires destination { IsOpen working.old line.now.destination.now line.now.asset.now }
    requires output { (worked working.old line.now.source.now line.now.asset.now).output + line.now.amount < 2 ^ 127 }
    requires input { (worked working.old line.now.destination.now line.now.asset.now).input + line.now.amount < 2 ^ 127 }
    ensures booked { (b y : List ℕ) → worked working.new b y ≡ sum_of (worked working.old b y) (total (tried_moves (posting_of line.now)) b y) }
    ensures stays { StaysOpen working.old working.new }
{
    let mut source = volumes_of(working, line.source, line.asset);
    source.output += line.amount.value();
    set_volumes(working, line.source, line.asset, source);
    let mut destination = volumes_of(working, line.destination, line.asset);
    destination.input += line.amount.value();
    set_volumes(working, line.destination, line.asset, destination);
}

/// Takes back the amount of the posting.
pub fn take_line(working: &mut Working, line: &Line<'_>)
    requires source { IsOpen working.old line.now.source.now line.now.asset.now }
    requires destination { IsOpen working.old line.now.destination.now line.now.asset.now }
    requires output { line.now.amount ≤ (worked working.old line.now.source.now line.now.asset.now).output }
    requires input { line.now.amount ≤ (worked working.old line.now.destination.now line.now.asset.now).input }
    ensures taken { (b y : List ℕ) → sum_of (worked working.new b y) (total (tried_moves (posting_of line.now)) b y) ≡ worked working.old b y }
    ensures stays { StaysOpen working.old working.new }
{
    let mut source = volumes_of(working, line.source, line.asset);
    source.output -= line.amount.value();
    set_volumes(working, line.source, line.asset, source);
    let mut destination = volumes_of(working, line.destination, line.asset);
    destination.input -= line.amount.value();
    set_volumes(working, line.destination, line.asset, destination);
}
