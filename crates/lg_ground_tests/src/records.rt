//! Records of tests.

use lg_types::{AccountMeta, Address, Amount, Asset, Meta, NameFault, Posting, Postings, Write};
use std::alloc::Global;

/// A posting of so many units of `USD/2`, at most 2^64 - 1.
pub fn posting(
    alloc: Global,
    source: &[u8],
    destination: &[u8],
    units: u64,
) -> Result<Posting, NameFault> {
    let Some(amount) = Amount::of(u128::from(units)) else {
        unreachable!();
    };
    Ok(Posting {
        source: Address::read(alloc, source)?,
        destination: Address::read(alloc, destination)?,
        asset: Asset::read(alloc, b"USD/2")?,
        amount,
    })
}

/// The posting of 100 `USD/2` from `world` to `users:1`.
pub fn deposit(alloc: Global) -> Result<Posting, NameFault> {
    posting(alloc, b"world", b"users:1", 100)
}

/// The write that creates a transaction of that posting alone.
pub fn creation(alloc: Global) -> Result<Write, NameFault> {
    Ok(Write::Create {
        postings: Postings::of(alloc, deposit(alloc)?)?,
        reference: None,
        timestamp: None,
        metadata: Meta::new(alloc),
        accounts: AccountMeta::new(alloc),
        force: false,
    })
}
