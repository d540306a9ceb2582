//! Stripes of accounts, and a ledger that is made.

use lg_containers::{Bucket, LedgerName, Meta, Name, Shared};
use lg_shard::{Class, Shard, stripe_of};
use lg_types::{Event, LedgerInfo};
use std::alloc::Global;
use std::test::Fail;

fn account_stripe(alloc: Global, address: &str) -> Result<u8, Fail> {
    let ledger: LedgerName = Name::read(alloc, b"default")?;
    Ok(stripe_of(Class::Account, &ledger, address.as_bytes()))
}

#[test]
fn accounts_have_their_stripes(rt: HostRuntime) -> Result<(), Fail> {
    for (address, stripe) in [
        ("a", 0),
        ("b", 9),
        ("c", 6),
        ("d", 15),
        ("users:1", 2),
        ("users:2", 15),
        ("world", 7),
    ] {
        assert_eq!(rt;
            account_stripe(rt.alloc(), address)?,
            stripe,
            "at {address}"
        );
    }
    Ok(())
}

fn made(alloc: Global) -> Result<LedgerInfo, Fail> {
    let name: LedgerName = Name::read(alloc, b"default")?;
    let bucket: Bucket = Name::read(alloc, b"_default")?;
    Ok(LedgerInfo {
        name,
        bucket,
        metadata: Meta::new(alloc),
        added: 0,
    })
}

#[test]
fn a_ledger_that_is_made_has_no_share(rt: HostRuntime) -> Result<(), Fail> {
    let event = Shared::new(rt.alloc(), Event::Made(made(rt.alloc())?))?;
    let mut shard = Shard::new(rt.alloc(), 3);
    shard.prepare(&event, 1)?;
    shard.forget();
    shard.prepare(&event, 1)?;
    shard.apply(event.get(), 1);
    assert_eq!(rt; shard.stripe(), 3);
    Ok(())
}
