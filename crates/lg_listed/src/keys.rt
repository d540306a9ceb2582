//! The keys of a ledger's log and of earlier entries.

ghost use Rattle.std.specs.Prelude.{◌≡◌, ◌++◌, if◌then◌else◌, List, [], ◌∷◌, Some, None, IfOk};
ghost use Rattle.std.specs.Str.{bytes_eq};
ghost use Rattle.lg_types.specs.declared.records.Event.{Event};
ghost use Rattle.lg_types.specs.Log.{log};
ghost use Rattle.lg_views.specs.Writes.{marked};
ghost use Rattle.lg_weigh.specs.Lent.{AreLent, AreParts};
ghost use Rattle.lg_weigh.specs.Weighing.{kept_in};
ghost use Rattle.lg_listed.specs.Elements.{every_stripe};
ghost use Rattle.lg_listed.specs.Trying.{tried_kept};

use crate::tried::Tried;
use lg_chain::input_hash;
use lg_shard::{Shards, stripe_of};
use lg_types::{Class, Duplicate, Entry, Key, KeyMark, LedgerName, NoMemory, Refusal, Write};
use lg_weigh::Kept;
use std::alloc::Global;

/// What the ledger's log and the earlier entries keep of the key.
pub fn find_kept<S: Shards>(
    ledger: &LedgerName,
    key: &Key,
    lent: &S,
    earlier: &[Entry],
) -> Option<Kept>
    requires { AreLent every_stripe (S.lent lent.now) }
    ensures { (events : List Event) → AreParts every_stripe (S.lent lent.now) events → result ≡ kept_in (log events ledger.now ++ earlier.now) key.now }
{
    match kept_logged(ledger, key, lent) {
        Some(kept) => Some(kept),
        None => kept_earlier(earlier, key),
    }
}

/// What the key's stripe keeps of the key.
fn kept_logged<S: Shards>(ledger: &LedgerName, key: &Key, lent: &S) -> Option<Kept>
    requires { AreLent every_stripe (S.lent lent.now) }
    ensures { (events : List Event) → AreParts every_stripe (S.lent lent.now) events → result ≡ kept_in (log events ledger.now) key.now }
{
    match lent.shard(stripe_of(Class::Key, ledger, key.bytes())) {
        Some(shard) => shard.key(ledger, key),
        None => unreachable!(),
    }
}

/// What the entries keep of the key.
fn kept_earlier(entries: &[Entry], key: &Key) -> Option<Kept>
    ensures { result ≡ kept_in entries.now key.now }
{
    for entry in entries {
        match kept_of(entry, key) {
            Some(kept) => return Some(kept),
            None => {}
        }
    }
    None
}

/// What is kept of the entry, where it has the key.
fn kept_of(entry: &Entry, key: &Key) -> Option<Kept>
    ensures { result ≡ kept_in (entry.now ∷ []) key.now }
{
    match &entry.mark {
        Some(mark) => kept_by(entry.id, mark, key),
        None => None,
    }
}

/// What is kept of the entry of the id with the mark, where the mark is of the key.
fn kept_by(id: u64, mark: &KeyMark, key: &Key) -> Option<Kept>
    ensures { result ≡ (if bytes_eq mark.now.key key.now then Some (record { entry = id; input_hash = mark.now.input_hash }) else None) }
{
    if mark.key.bytes() == key.bytes() {
        Some(Kept {
            entry: id,
            input_hash: mark.input_hash,
        })
    } else {
        None
    }
}

/// What a write comes to whose key is kept: the entry that has it, where the same was asked.
pub fn answer_kept(alloc: Global, key: &Key, write: &Write, kept: Kept) -> Result<Tried, NoMemory>
    ensures { IfOk result (λ tried. tried ≡ tried_kept key.now write.now kept) }
{
    let given = input_hash(write);
    if kept.input_hash == given {
        return Ok(Tried::Kept { entry: kept.entry });
    }
    let key = key.copy(alloc)?;
    Ok(Tried::Refused(Refusal::KeyInput {
        key,
        kept: kept.input_hash,
        given,
    }))
}

/// The mark of a new entry: the key with the hash of what is asked.
pub fn mark_of(alloc: Global, key: &Option<Key>, write: &Write) -> Result<Option<KeyMark>, NoMemory>
    ensures { IfOk result (λ mark. mark ≡ marked key.now write.now) }
{
    match key {
        Some(key) => Ok(Some(KeyMark {
            key: key.copy(alloc)?,
            input_hash: input_hash(write),
        })),
        None => Ok(None),
    }
}
