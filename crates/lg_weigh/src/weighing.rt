//! What the shards say of a call.

ghost use Rattle.std.specs.Prelude.{◌≡◌, List, [], ◌∷◌, map, IfOk, IsSome, IsSomeAnd};
ghost use Rattle.std.specs.Option.{option_copied, option_to_list, option_and_then};
ghost use Rattle.lg_types.specs.declared.classes.Class.TheVariants.{Key as KeyClass, Reference as ReferenceClass};
ghost use Rattle.lg_types.specs.declared.records.Event.{Event};
ghost use Rattle.lg_types.specs.Known.{used as used_in};
ghost use Rattle.lg_types.specs.Log.{log};
ghost use Rattle.lg_types.specs.Parts.{account_resource, part_of};
ghost use Rattle.lg_types.specs.Stripes.{stripe};
ghost use Rattle.lg_weigh.specs.Lent.{AreLent, AreParts, stripes_with};
ghost use Rattle.lg_weigh.specs.Reach.{needs, named_key, named_reference, write_accounts, write_resources};
ghost use Rattle.lg_weigh.specs.Trials.{write_trial};
ghost use Rattle.lg_weigh.specs.Weighing.{asked_hash as hash_of_asked, kept_in, nothing as nothing_of, weighed, write_weighed};

use crate::balances::{LedgerBalances, shards_within};
use crate::stripes::reference_of;
use crate::trials::try_write;
use crate::weighed::Weighed;
use lg_chain::input_hash;
use lg_keys::Kept;
use lg_shard::{Shards, stripe_of};
use lg_sheet::Sheet;
use lg_types::{Call, Class, Key, LedgerName, NoMemory, Reference, Refusal, Transaction, Write};
use std::alloc::Global;

/// What the lent shards say of a call: of a write with a key the hash of what it asks and what is kept of the key, of a
/// creation its reference and its postings, and of a revert its postings; nothing of any other call. `known` is the
/// transaction that a revert names. Of the history it reads the totals of the postings' accounts alone.
pub fn weigh<S: Shards>(
    alloc: Global,
    call: &Call,
    known: Option<&Transaction>,
    lent: &S,
) -> Result<Weighed, NoMemory>
    requires { AreLent (needs call.now (option_copied known)) (S.lent lent.now) }
    ensures { IfOk result (λ w. (events : List Event) → AreParts (needs call.now (option_copied known.entry)) (S.lent lent.now) events → w ≡ weighed events call.now (option_copied known.entry)) }
{
    match call {
        Call::Unreadable(_) => Ok(nothing()),
        Call::MakeLedger { .. } => Ok(nothing()),
        Call::Write { ledger, key, write } => weigh_write(alloc, ledger, key, write, known, lent),
        Call::Bulk { .. } => Ok(nothing()),
        Call::Import { .. } => Ok(nothing()),
        Call::Ledgers { .. } => Ok(nothing()),
        Call::Read { .. } => Ok(nothing()),
    }
}

/// What is weighed of a call that is no write of its own.
fn nothing() -> Weighed
    ensures { result ≡ nothing_of }
{
    Weighed {
        input_hash: None,
        kept: None,
        used: None,
        trial: None,
    }
}

fn weigh_write<S: Shards>(
    alloc: Global,
    ledger: &LedgerName,
    key: &Option<Key>,
    write: &Write,
    known: Option<&Transaction>,
    lent: &S,
) -> Result<Weighed, NoMemory>
    requires { AreLent (stripes_with ledger.now (write_resources key.now write.now (option_copied known))) (S.lent lent.now) }
    ensures { IfOk result (λ w. (events : List Event) → AreParts (stripes_with ledger.now (write_resources key.now write.now (option_copied known.entry))) (S.lent lent.now) events → w ≡ write_weighed (log events ledger.now) key.now write.now (option_copied known.entry)) }
{
    let trial = weigh_postings(alloc, ledger, write, known, lent)?;
    Ok(Weighed {
        input_hash: asked_hash(key, write),
        kept: weigh_key(ledger, key, lent),
        used: weigh_reference(ledger, reference_of(write), lent),
        trial,
    })
}

/// The hash of what a write with a key asks.
fn asked_hash(key: &Option<Key>, write: &Write) -> Option<[u8; 32]>
    ensures { result ≡ hash_of_asked key.now write.now }
{
    match key {
        Some(_) => Some(input_hash(write)),
        None => None,
    }
}

fn weigh_key<S: Shards>(ledger: &LedgerName, key: &Option<Key>, lent: &S) -> Option<Kept>
    requires { AreLent (stripes_with ledger.now (map named_key (option_to_list key.now))) (S.lent lent.now) }
    ensures { (events : List Event) → AreParts (stripes_with ledger.now (map named_key (option_to_list key.now))) (S.lent lent.now) events → result ≡ option_and_then (kept_in (log events ledger.now)) key.now }
{
    match key {
        Some(key) => find_key(ledger, key, lent),
        None => None,
    }
}

/// What the key's stripe keeps of the key.
fn find_key<S: Shards>(ledger: &LedgerName, key: &Key, lent: &S) -> Option<Kept>
    requires { IsSome (S.lent lent.now (stripe KeyClass ledger.now key.now)) }
    ensures { (events : List Event) → IsSomeAnd (S.lent lent.now (stripe KeyClass ledger.now key.now)) (λ state. state.shares ≡ part_of (stripe KeyClass ledger.now key.now) events) → result ≡ kept_in (log events ledger.now) key.now }
{
    match lent.shard(stripe_of(Class::Key, ledger, key.bytes())) {
        Some(shard) => shard.key(ledger, key),
        None => unreachable!(),
    }
}

fn weigh_reference<S: Shards>(
    ledger: &LedgerName,
    reference: Option<&Reference>,
    lent: &S,
) -> Option<u64>
    requires { AreLent (stripes_with ledger.now (map named_reference (option_to_list (option_copied reference)))) (S.lent lent.now) }
    ensures { (events : List Event) → AreParts (stripes_with ledger.now (map named_reference (option_to_list (option_copied reference.entry)))) (S.lent lent.now) events → result ≡ option_and_then (used_in (log events ledger.now)) (option_copied reference.entry) }
{
    match reference {
        Some(reference) => find_reference(ledger, reference, lent),
        None => None,
    }
}

/// The transaction that the reference's stripe has for the reference.
fn find_reference<S: Shards>(ledger: &LedgerName, reference: &Reference, lent: &S) -> Option<u64>
    requires { IsSome (S.lent lent.now (stripe ReferenceClass ledger.now reference.now)) }
    ensures { (events : List Event) → IsSomeAnd (S.lent lent.now (stripe ReferenceClass ledger.now reference.now)) (λ state. state.shares ≡ part_of (stripe ReferenceClass ledger.now reference.now) events) → result ≡ used_in (log events ledger.now) reference.now }
{
    match lent.shard(stripe_of(Class::Reference, ledger, reference.bytes())) {
        Some(shard) => shard.reference(ledger, reference),
        None => unreachable!(),
    }
}

/// The refusal of the postings, over the totals of their accounts.
fn weigh_postings<S: Shards>(
    alloc: Global,
    ledger: &LedgerName,
    write: &Write,
    known: Option<&Transaction>,
    lent: &S,
) -> Result<Option<Refusal>, NoMemory>
    requires { AreLent (stripes_with ledger.now (map account_resource (write_accounts write.now (option_copied known)))) (S.lent lent.now) }
    ensures { IfOk result (λ refused. (events : List Event) → AreParts (stripes_with ledger.now (map account_resource (write_accounts write.now (option_copied known.entry)))) (S.lent lent.now) events → refused ≡ write_trial (log events ledger.now) write.now (option_copied known.entry)) }
{
    shards_within(lent);
    let balances = LedgerBalances::new(lent, ledger);
    let mut sheet = Sheet::new(alloc);
    try_write(alloc, &mut sheet, &balances, write, known)
}
