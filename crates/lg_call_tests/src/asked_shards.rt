//! What shards are asked.

ghost use Rattle.std.specs.Prelude.{◌≡◌, IfOk};
ghost use Rattle.lg_types.specs.Stripes.{stripe};

use crate::asked_history::told_history;
use crate::asked_moves::told_moves;
use crate::words::{told_hash, told_number};
use lg_keys::Kept;
use lg_request_tests::{canonical_text, text_of};
use lg_shard::{Class, Shard, stripe_of};
use lg_store::Solo;
use lg_types::{Address, Asset, Key, LedgerName, Reference};
use std::alloc::Global;
use std::test::Fail;

/// The shard of a resource of a ledger.
fn shard_of<'a>(
    solo: &'a Solo,
    ledger: &LedgerName,
    class: Class,
    name: &[u8],
) -> Result<&'a Shard, Fail>
    ensures { IfOk result (λ shard. shard.now.stripe ≡ stripe class ledger.now name.now) }
{
    match solo.shard(stripe_of(class, ledger, name)) {
        Some(shard) => Ok(shard),
        None => Err("no such stripe".into()),
    }
}

fn told_kept(alloc: Global, kept: Option<Kept>) -> Result<String, Fail> {
    match kept {
        Some(kept) => {
            let hash = told_hash(alloc, &kept.input_hash)?;
            Ok(format!(in alloc; "{} {hash}", kept.entry)?)
        }
        None => text_of(alloc, b"none"),
    }
}

fn told_key(alloc: Global, solo: &Solo, ledger: &LedgerName, key: &str) -> Result<String, Fail> {
    let key = Key::read(alloc, key.as_bytes())?;
    let shard = shard_of(solo, ledger, Class::Key, key.bytes())?;
    told_kept(alloc, shard.key(ledger, &key))
}

fn told_reference(
    alloc: Global,
    solo: &Solo,
    ledger: &LedgerName,
    reference: &str,
) -> Result<String, Fail> {
    let reference = Reference::read(alloc, reference.as_bytes())?;
    let shard = shard_of(solo, ledger, Class::Reference, reference.bytes())?;
    told_number(alloc, shard.reference(ledger, &reference))
}

fn told_asset_moves(
    alloc: Global,
    shard: &Shard,
    ledger: &LedgerName,
    account: &Address,
    words: &[&str],
) -> Result<String, Fail> {
    match words {
        [asset, rest @ ..] => {
            let asset = Asset::read(alloc, asset.as_bytes())?;
            told_moves(alloc, shard.index(ledger, account, &asset), rest)
        }
        _ => Err("no asset".into()),
    }
}

/// What the shard of an account answers to a question about it.
fn told_account(
    alloc: Global,
    shard: &Shard,
    ledger: &LedgerName,
    account: &Address,
    kind: &str,
    words: &[&str],
) -> Result<String, Fail> {
    match kind.as_bytes() {
        b"stripe" => Ok(format!(in alloc; "{}", shard.stripe())?),
        b"known" => Ok(format!(in alloc; "{}", shard.known(ledger, account))?),
        b"addresses" => canonical_text(alloc, &shard.addresses(ledger)?),
        b"assets" => canonical_text(alloc, &shard.assets(ledger, account)?),
        b"metadata" => told_history(alloc, shard.history(ledger, account), words),
        _ => told_asset_moves(alloc, shard, ledger, account, words),
    }
}

fn told_of_account(
    alloc: Global,
    solo: &Solo,
    ledger: &LedgerName,
    account: &str,
    kind: &str,
    words: &[&str],
) -> Result<String, Fail> {
    let account = Address::read(alloc, account.as_bytes())?;
    let shard = shard_of(solo, ledger, Class::Account, account.bytes())?;
    told_account(alloc, shard, ledger, &account, kind, words)
}

/// Whether a question of this kind is one of the shards.
pub fn is_of_shards(kind: &str) -> bool {
    match kind.as_bytes() {
        b"stripe" => true,
        b"known" => true,
        b"addresses" => true,
        b"assets" => true,
        b"metadata" => true,
        b"moves" => true,
        b"key" => true,
        b"reference" => true,
        _ => false,
    }
}

/// What the shards answer to a question about a ledger, and `none` where they know nothing: the entry that is kept for a
/// `key`, with the hash of its input; the transaction that has a `reference`; of an account the number of its `stripe`,
/// whether it is `known`, the `addresses` of its stripe, its `assets`, its `metadata`, and its `moves` of an asset.
pub fn told_by_shards(
    alloc: Global,
    solo: &Solo,
    ledger: &LedgerName,
    kind: &str,
    words: &[&str],
) -> Result<String, Fail> {
    match words {
        [name, rest @ ..] => match kind.as_bytes() {
            b"key" => told_key(alloc, solo, ledger, name),
            b"reference" => told_reference(alloc, solo, ledger, name),
            _ => told_of_account(alloc, solo, ledger, name, kind, rest),
        },
        _ => Err("no name".into()),
    }
}
