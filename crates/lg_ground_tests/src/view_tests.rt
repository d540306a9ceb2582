//! Copies of what replies show.

use lg_types::{Address, Asset, Duplicate, NameFault, Refusal};
use lg_views::{AccountVolumes, AssetVolumes, BulkItem, Volumes};
use std::alloc::Global;
use std::test::Fail;

/// The volumes of `a`: 10 `EUR` in, and 4 out.
fn volumes_of_one(alloc: Global) -> Result<AccountVolumes, NameFault> {
    let mut assets = AssetVolumes::new(alloc);
    assets.put(
        Asset::read(alloc, b"EUR")?,
        Volumes {
            input: 10,
            output: 4,
        },
    )?;
    let mut volumes = AccountVolumes::new(alloc);
    volumes.put(Address::read(alloc, b"a")?, assets)?;
    Ok(volumes)
}

#[test]
fn volumes_are_copied(rt: HostRuntime) -> Result<(), Fail> {
    let copied = volumes_of_one(rt.alloc())?.copy(rt.alloc())?;
    let found = copied.find(b"a").ok_or("the account")?;
    let of_asset = found.find(b"EUR").ok_or("the asset")?;
    assert_eq!(rt; of_asset.input, 10);
    assert_eq!(rt; of_asset.output, 4);
    Ok(())
}

#[test]
fn a_failed_element_is_copied(rt: HostRuntime) -> Result<(), Fail> {
    let failed = BulkItem::Failed {
        element: 2,
        refusal: Refusal::NoPostings,
    };
    assert!(rt;
        matches!(
            failed.copy(rt.alloc())?,
            BulkItem::Failed {
                element: 2,
                refusal: Refusal::NoPostings
            }
        )
    );
    Ok(())
}
