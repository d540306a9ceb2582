//! The names of a path, and the key.

ghost use Rattle.std.specs.Prelude.{◌≡◌, Some};
ghost use Rattle.lg_readings.specs.Answers.{IfForm};
ghost use Rattle.lg_readings.specs.Requests as requests;
ghost use Rattle.lg_codec.specs.Results.{Reads};
ghost use Rattle.lg_routes.specs.Names.{TargetNamed};
ghost use Rattle.lg_routes.specs.Seen.{bytes_seen};

use crate::numbers::read_number;
use crate::refusals::wrong;
use lg_base::NoMemory;
use lg_codec::CodecStop;
use lg_containers::{Grammar, Name, NameFault};
use lg_types::{Address, Key, LedgerName, Reason, Target, Text};
use std::alloc::Global;

/// The name of the grammar that the bytes are; a refusal of the path where they are none.
fn read_name<G: Grammar>(alloc: Global, path: &str, bytes: &[u8]) -> Result<Name<G>, CodecStop>
    ensures { Reads (IfForm (G.Names bytes.now) (Some path.now) bytes.now) result }
{
    match Name::<G>::read(alloc, bytes) {
        Ok(name) => Ok(name),
        Err(NameFault::Bad { .. }) => Err(wrong(alloc, path, Reason::Form)),
        Err(NameFault::NoMemory) => Err(CodecStop::NoMemory),
    }
}

pub fn ledger_named(alloc: Global, bytes: &[u8]) -> Result<LedgerName, CodecStop>
    ensures { Reads (requests.LedgerNamed bytes.now) result }
{
    read_name(alloc, "ledger", bytes)
}

pub fn address_named(alloc: Global, bytes: &[u8]) -> Result<Address, CodecStop>
    ensures { Reads (requests.AddressNamed bytes.now) result }
{
    read_name(alloc, "address", bytes)
}

pub fn metadata_named(alloc: Global, bytes: &[u8]) -> Result<Text, CodecStop>
    ensures { Reads (requests.MetadataNamed bytes.now) result }
{
    read_name(alloc, "metadata", bytes)
}

pub fn id_named(alloc: Global, bytes: &[u8]) -> Result<u64, CodecStop>
    ensures { Reads (requests.IdNamed bytes.now) result }
{
    match read_number(bytes) {
        Some(id) => Ok(id),
        None => Err(wrong(alloc, "id", Reason::Form)),
    }
}

fn account_target(alloc: Global, bytes: &[u8]) -> Result<Target, CodecStop>
    ensures { Reads (requests.AccountTarget bytes.now) result }
{
    let address = address_named(alloc, bytes)?;
    Ok(Target::Account(address))
}

fn transaction_target(alloc: Global, bytes: &[u8]) -> Result<Target, CodecStop>
    ensures { Reads (requests.TransactionTarget bytes.now) result }
{
    let id = id_named(alloc, bytes)?;
    Ok(Target::Transaction(id))
}

/// The name of what metadata are about.
#[derive(Clone, Copy)]
pub enum TargetName<'a> {
    /// The address of an account.
    Account(&'a [u8]),
    /// The id of a transaction.
    Transaction(&'a [u8]),
}

pub fn target_named(alloc: Global, name: TargetName<'_>) -> Result<Target, CodecStop>
    ensures { Reads (TargetNamed name.entry) result }
{
    match name {
        TargetName::Account(address) => account_target(alloc, address),
        TargetName::Transaction(id) => transaction_target(alloc, id),
    }
}

fn some_key(alloc: Global, bytes: &[u8]) -> Result<Option<Key>, CodecStop>
    ensures { Reads (requests.KeyIn (Some bytes.now)) result }
{
    let key = read_name(alloc, "key", bytes)?;
    Ok(Some(key))
}

/// The key of a request, where it has one.
pub fn read_key(alloc: Global, key: Option<&[u8]>) -> Result<Option<Key>, CodecStop>
    ensures { Reads (requests.KeyIn (bytes_seen key.entry)) result }
{
    match key {
        None => Ok(None),
        Some(bytes) => some_key(alloc, bytes),
    }
}
