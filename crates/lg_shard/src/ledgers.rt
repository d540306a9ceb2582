//! What the ledgers hold of the stripe.

ghost use Rattle.std.specs.Prelude.{◌≡◌, ℕ, ◌+◌, ◌≤◌, ◌<◌, List, ◌++◌, length, OnOk, OnErr, IfOk, IsSome, Some};
ghost use Rattle.lg_containers.specs.NameTable as table;
ghost use Rattle.lg_types.specs.declared.records.Event.TheVariants.{Logged};
ghost use Rattle.lg_types.specs.Changes.{Change};
ghost use Rattle.lg_types.specs.Moves.{Placed};
ghost use Rattle.lg_types.specs.Parts.{Share, shares_of};
ghost use Rattle.lg_shard.specs.Holdings.{Holding, HoldingFollows, joined, own_changes, own_holding, own_moves};
ghost use Rattle.lg_shard.specs.Names.{names_in};
ghost use Rattle.lg_shard.specs.Ties.{HistoriesTied, MovesTied, PartTied, LedgersTied, IsRoomFor, AreRoomFor, IsReadyFor};

use crate::accounts::Accounts;
use crate::entries::{
    apply_changes, apply_moves, forget_changes, prepare_changes, release_moves, reserve_moves,
};
use crate::names::{Names, own_names};
use crate::tables::{apply_key, apply_reference};
use lg_containers::{LedgerName, LedgerNameGrammar, NoMemory};
use lg_keys::{KeyTable, ReferenceTable};
use lg_maps::NameMap;
use lg_runs::Steps;
use lg_types::Entry;
use std::alloc::Global;
use std::sync::ledger::Ledger;

/// What one ledger holds of the stripe.
#[derive(Drop)]
pub struct LedgerPart {
    pub(crate) accounts: Accounts,
    pub(crate) keys: KeyTable,
    pub(crate) references: ReferenceTable,
}

/// What each ledger holds of the stripe.
pub type Ledgers = NameMap<LedgerNameGrammar, LedgerPart>;

impl LedgerPart {
    /// Nothing.
    pub fn new(alloc: Global) -> LedgerPart
        ensures accounts { result.accounts ≡ table.empty }
        ensures keys { result.keys ≡ record { table = table.empty; spare = 0 } }
        ensures references { result.references ≡ record { table = table.empty; spare = 0 } }
    {
        LedgerPart {
            accounts: NameMap::new(alloc),
            keys: KeyTable::new(alloc),
            references: ReferenceTable::new(alloc),
        }
    }
}

// Makes the part ready for an entry of its ledger, as the last of at most `count` that are prepared.
fn prepare_part(
    alloc: Global,
    part: &mut LedgerPart,
    stripe: u8,
    ledger: &LedgerName,
    entry: &Entry,
    count: usize,
) -> Result<Names, NoMemory>
    ensures names { IfOk result (λ names. names ≡ names_in stripe ledger.now entry.now) }
    ensures ok { OnOk result ((done ahead : Holding) → IsRoomFor count ahead → PartTied (Some part.old) done ahead → PartTied (Some part.new) done (joined ahead (own_holding stripe ledger.now entry.now))) }
    ensures err { OnErr result ((done ahead : Holding) → PartTied (Some part.old) done ahead → PartTied (Some part.new) done ahead) }
{
    part.keys.prepare(count)?;
    part.references.prepare(count)?;
    let names = own_names(alloc, stripe, ledger, entry)?;
    reserve_entry(alloc, &mut part.accounts, stripe, ledger, entry)?;
    Ok(names)
}

// Makes room for the moves of an entry and prepares its changes.
fn reserve_entry(
    alloc: Global,
    accounts: &mut Accounts,
    stripe: u8,
    ledger: &LedgerName,
    entry: &Entry,
) -> Result<(), NoMemory>
    ensures moves_ok { OnOk result ((done ahead : List Placed) → MovesTied accounts.old done ahead → MovesTied accounts.new done (ahead ++ own_moves stripe ledger.now entry.now)) }
    ensures moves_err { OnErr result ((done ahead : List Placed) → MovesTied accounts.old done ahead → MovesTied accounts.new done ahead) }
    ensures changes_ok { OnOk result ((done ahead : List Change) → HistoriesTied accounts.old done ahead → HistoriesTied accounts.new done (ahead ++ own_changes stripe ledger.now entry.now)) }
    ensures changes_err { OnErr result ((done ahead : List Change) → HistoriesTied accounts.old done ahead → HistoriesTied accounts.new done ahead) }
{
    reserve_moves(alloc, accounts, stripe, ledger, entry)?;
    match prepare_changes(alloc, accounts, stripe, ledger, entry) {
        Ok(()) => Ok(()),
        Err(error) => {
            release_moves(accounts, stripe, ledger, entry);
            Err(error)
        }
    }
}

// Applies a prepared entry.
fn apply_part<L: Ledger>(
    part: &mut LedgerPart,
    stripe: u8,
    ledger: &LedgerName,
    entry: &Entry,
    names: Names,
    steps: &mut Steps<L>,
)
    requires names { names ≡ names_in stripe ledger.now entry.now }
    requires ready { (done : Holding) × (ahead : Holding) × PartTied (Some part.old) done (joined (own_holding stripe ledger.now entry.now) ahead) × HoldingFollows done (own_holding stripe ledger.now entry.now) }
    ensures { (done ahead : Holding) → PartTied (Some part.old) done (joined (own_holding stripe ledger.now entry.now) ahead) → PartTied (Some part.new) (joined done (own_holding stripe ledger.now entry.now)) ahead }
{
    let Names { key, reference } = names;
    apply_key(&mut part.keys, stripe, ledger, entry, key);
    apply_reference(&mut part.references, stripe, ledger, entry, reference);
    apply_moves(&mut part.accounts, stripe, ledger, entry, steps);
    apply_changes(&mut part.accounts, stripe, ledger, entry);
}

// Gives up the entry that was prepared last.
fn release_part(part: &mut LedgerPart, stripe: u8, ledger: &LedgerName, entry: &Entry)
    ensures { (done ahead : Holding) → PartTied (Some part.old) done (joined ahead (own_holding stripe ledger.now entry.now)) → PartTied (Some part.new) done ahead }
{
    release_moves(&mut part.accounts, stripe, ledger, entry);
    forget_changes(&mut part.accounts, stripe, ledger, entry);
}

/// Makes the ledgers ready for an entry, as the last of at most `count` that are prepared.
pub fn prepare_entry(
    alloc: Global,
    ledgers: &mut Ledgers,
    stripe: u8,
    ledger: &LedgerName,
    entry: &Entry,
    count: usize,
) -> Result<Names, NoMemory>
    ensures names { IfOk result (λ names. names ≡ names_in stripe ledger.now entry.now) }
    ensures ok { OnOk result ((place : ℕ) (shares coming : List Share) → AreRoomFor count coming → LedgersTied ledgers.old shares coming → LedgersTied ledgers.new shares (coming ++ shares_of stripe place (Logged ledger.now entry.now))) }
    ensures err { OnErr result ((shares coming : List Share) → LedgersTied ledgers.old shares coming → LedgersTied ledgers.new shares coming) }
    ensures there { OnOk result (IsSome (table.get ledgers.new ledger.now)) }
    ensures still { (q : List ℕ) → IsSome (table.get ledgers.old q) → IsSome (table.get ledgers.new q) }
{
    let part = ledgers.open(alloc, ledger, LedgerPart::new(alloc))?;
    prepare_part(alloc, part, stripe, ledger, entry, count)
}

/// Applies a prepared entry.
pub fn apply_entry<L: Ledger>(
    ledgers: &mut Ledgers,
    stripe: u8,
    ledger: &LedgerName,
    entry: &Entry,
    names: Names,
    steps: &mut Steps<L>,
)
    requires there { IsSome (table.get ledgers.old ledger.now) }
    requires names { names ≡ names_in stripe ledger.now entry.now }
    requires ready { IsReadyFor ledgers.old stripe (Logged ledger.now entry.now) }
    ensures tied { (place : ℕ) (shares coming : List Share) → LedgersTied ledgers.old shares (shares_of stripe place (Logged ledger.now entry.now) ++ coming) → LedgersTied ledgers.new (shares ++ shares_of stripe place (Logged ledger.now entry.now)) coming }
    ensures still { (q : List ℕ) → IsSome (table.get ledgers.old q) → IsSome (table.get ledgers.new q) }
{
    let part = ledgers.value_mut(ledger.bytes());
    apply_part(part, stripe, ledger, entry, names, steps);
}

/// Gives up the entry that was prepared last.
pub fn release_entry(ledgers: &mut Ledgers, stripe: u8, ledger: &LedgerName, entry: &Entry)
    ensures { (place : ℕ) (shares coming : List Share) → LedgersTied ledgers.old shares (coming ++ shares_of stripe place (Logged ledger.now entry.now)) → LedgersTied ledgers.new shares coming }
{
    if ledgers.find(ledger.bytes()).is_some() {
        let part = ledgers.value_mut(ledger.bytes());
        release_part(part, stripe, ledger, entry);
    }
}
