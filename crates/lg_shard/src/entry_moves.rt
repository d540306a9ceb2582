//! The moves of a transaction on the accounts of its ledger, as far as the accounts are of the stripe.

ghost use Rattle.std.specs.Prelude.{◌≡◌, ℕ, ◌+◌, ◌-◌, ◌≤◌, List, ◌++◌, sum_by, OnOk, OnErr};
ghost use Rattle.std.specs.List.{flat_map};
ghost use Rattle.lg_types.specs.Parts.{has_account};
ghost use Rattle.lg_shard.specs.Accounts.{items_at, waiting_at, SameHoldings, SameRoom, SameHistories};
ghost use Rattle.lg_shard.specs.Holdings.{MovesFollow};
ghost use Rattle.lg_shard.specs.Sides.{side_count, side_moves, posting_count, posting_items};

use crate::accounts::{Accounts, apply_pair, has_pair, release_pair, reserve_pair};
use crate::stripes::stripe_of;
use lg_containers::{Address, Asset, NoMemory};
use lg_runs::Steps;
use lg_types::{Class, LedgerName, Move, Posting, Transaction};
use std::alloc::Global;
use std::sync::ledger::Ledger;

/// Whether an account of the ledger is of the stripe.
pub fn is_own(stripe: u8, ledger: &LedgerName, account: &Address) -> bool
    ensures { result ≡ has_account stripe ledger.now account.now }
{
    stripe_of(Class::Account, ledger, account.bytes()) == stripe
}

fn reserve_side(
    alloc: Global,
    accounts: &mut Accounts,
    stripe: u8,
    ledger: &LedgerName,
    account: &Address,
    asset: &Asset,
) -> Result<(), NoMemory>
    ensures same { SameHoldings accounts.old accounts.new }
    ensures ok { OnOk result ((a b : List ℕ) → waiting_at accounts.new a b ≡ waiting_at accounts.old a b + side_count stripe ledger.now account.now asset.now a b) }
    ensures err { OnErr result (SameRoom accounts.old accounts.new) }
{
    if !is_own(stripe, ledger, account) {
        return Ok(());
    }
    reserve_pair(alloc, accounts, account, asset)
}

fn release_side(
    accounts: &mut Accounts,
    stripe: u8,
    ledger: &LedgerName,
    account: &Address,
    asset: &Asset,
)
    ensures same { SameHoldings accounts.old accounts.new }
    ensures room { (a b : List ℕ) → waiting_at accounts.new a b ≡ waiting_at accounts.old a b - side_count stripe ledger.now account.now asset.now a b }
{
    if is_own(stripe, ledger, account) && has_pair(accounts, account, asset) {
        release_pair(accounts, account, asset);
    }
}

fn apply_side<L: Ledger>(
    accounts: &mut Accounts,
    stripe: u8,
    ledger: &LedgerName,
    account: &Address,
    asset: &Asset,
    item: Move,
    steps: &mut Steps<L>,
)
    requires room { (a b : List ℕ) → side_count stripe ledger.now account.now asset.now a b ≤ waiting_at accounts.old a b }
    requires follows { (a b : List ℕ) → MovesFollow (items_at accounts.old a b) (side_moves stripe ledger.now account.now asset.now item a b) }
    ensures items { (a b : List ℕ) → items_at accounts.new a b ≡ items_at accounts.old a b ++ side_moves stripe ledger.now account.now asset.now item a b }
    ensures room { (a b : List ℕ) → waiting_at accounts.new a b + side_count stripe ledger.now account.now asset.now a b ≡ waiting_at accounts.old a b }
    ensures histories { SameHistories accounts.old accounts.new }
{
    if is_own(stripe, ledger, account) {
        apply_pair(accounts, account, asset, item, steps);
    }
}

fn reserve_posting(
    alloc: Global,
    accounts: &mut Accounts,
    stripe: u8,
    ledger: &LedgerName,
    posting: &Posting,
) -> Result<(), NoMemory>
    ensures same { SameHoldings accounts.old accounts.new }
    ensures ok { OnOk result ((a b : List ℕ) → waiting_at accounts.new a b ≡ waiting_at accounts.old a b + posting_count stripe ledger.now a b posting.now) }
    ensures err { OnErr result (SameRoom accounts.old accounts.new) }
{
    let asset = &posting.asset;
    reserve_side(alloc, accounts, stripe, ledger, &posting.source, asset)?;
    match reserve_side(alloc, accounts, stripe, ledger, &posting.destination, asset) {
        Ok(()) => Ok(()),
        Err(error) => {
            release_side(accounts, stripe, ledger, &posting.source, asset);
            Err(error)
        }
    }
}

fn release_posting(accounts: &mut Accounts, stripe: u8, ledger: &LedgerName, posting: &Posting)
    ensures same { SameHoldings accounts.old accounts.new }
    ensures room { (a b : List ℕ) → waiting_at accounts.new a b ≡ waiting_at accounts.old a b - posting_count stripe ledger.now a b posting.now }
{
    release_side(accounts, stripe, ledger, &posting.source, &posting.asset);
    release_side(
        accounts,
        stripe,
        ledger,
        &posting.destination,
        &posting.asset,
    );
}

// The move of one side of a posting: its output, or its input where the amount comes in.
fn move_of(transaction: &Transaction, inserted: &i64, posting: &Posting, incoming: bool) -> Move
    ensures { result ≡ record { transaction = transaction.now.id; inserted = inserted.now; effective = transaction.now.timestamp; incoming = incoming; amount = posting.now.amount } }
{
    Move {
        transaction: transaction.id,
        inserted: *inserted,
        effective: transaction.timestamp,
        incoming,
        amount: posting.amount,
    }
}

fn apply_posting<L: Ledger>(
    accounts: &mut Accounts,
    stripe: u8,
    ledger: &LedgerName,
    transaction: &Transaction,
    inserted: &i64,
    posting: &Posting,
    steps: &mut Steps<L>,
)
    requires room { (a b : List ℕ) → posting_count stripe ledger.now a b posting.now ≤ waiting_at accounts.old a b }
    requires follows { (a b : List ℕ) → MovesFollow (items_at accounts.old a b) (posting_items stripe ledger.now transaction.now.id inserted.now transaction.now.timestamp a b posting.now) }
    ensures items { (a b : List ℕ) → items_at accounts.new a b ≡ items_at accounts.old a b ++ posting_items stripe ledger.now transaction.now.id inserted.now transaction.now.timestamp a b posting.now }
    ensures room { (a b : List ℕ) → waiting_at accounts.new a b + posting_count stripe ledger.now a b posting.now ≡ waiting_at accounts.old a b }
    ensures histories { SameHistories accounts.old accounts.new }
{
    let asset = &posting.asset;
    let outgoing = move_of(transaction, inserted, posting, false);
    apply_side(
        accounts,
        stripe,
        ledger,
        &posting.source,
        asset,
        outgoing,
        steps,
    );
    let incoming = move_of(transaction, inserted, posting, true);
    apply_side(
        accounts,
        stripe,
        ledger,
        &posting.destination,
        asset,
        incoming,
        steps,
    );
}

/// Makes room for the moves of the postings.
pub fn reserve_postings(
    alloc: Global,
    accounts: &mut Accounts,
    stripe: u8,
    ledger: &LedgerName,
    postings: &[Posting],
) -> Result<(), NoMemory>
    ensures same { SameHoldings accounts.old accounts.new }
    ensures ok { OnOk result ((a b : List ℕ) → waiting_at accounts.new a b ≡ waiting_at accounts.old a b + sum_by (posting_count stripe ledger.now a b) postings.now) }
    ensures err { OnErr result (SameRoom accounts.old accounts.new) }
{
    for done in 0..postings.len() {
        match reserve_posting(alloc, accounts, stripe, ledger, &postings[done]) {
            Ok(()) => {}
            Err(error) => {
                release_postings(accounts, stripe, ledger, &postings[..done]);
                return Err(error);
            }
        }
    }
    Ok(())
}

/// Gives back the room for the moves of the postings.
pub fn release_postings(
    accounts: &mut Accounts,
    stripe: u8,
    ledger: &LedgerName,
    postings: &[Posting],
)
    ensures same { SameHoldings accounts.old accounts.new }
    ensures room { (a b : List ℕ) → waiting_at accounts.new a b ≡ waiting_at accounts.old a b - sum_by (posting_count stripe ledger.now a b) postings.now }
{
    for posting in postings {
        release_posting(accounts, stripe, ledger, posting);
    }
}

/// Applies the moves of the postings, which have room.
pub fn apply_postings<L: Ledger>(
    accounts: &mut Accounts,
    stripe: u8,
    ledger: &LedgerName,
    transaction: &Transaction,
    inserted: &i64,
    postings: &[Posting],
    steps: &mut Steps<L>,
)
    requires room { (a b : List ℕ) → sum_by (posting_count stripe ledger.now a b) postings.now ≤ waiting_at accounts.old a b }
    requires follows { (a b : List ℕ) → MovesFollow (items_at accounts.old a b) (flat_map (posting_items stripe ledger.now transaction.now.id inserted.now transaction.now.timestamp a b) postings.now) }
    ensures items { (a b : List ℕ) → items_at accounts.new a b ≡ items_at accounts.old a b ++ flat_map (posting_items stripe ledger.now transaction.now.id inserted.now transaction.now.timestamp a b) postings.now }
    ensures room { (a b : List ℕ) → waiting_at accounts.new a b + sum_by (posting_count stripe ledger.now a b) postings.now ≡ waiting_at accounts.old a b }
    ensures histories { SameHistories accounts.old accounts.new }
{
    for posting in postings {
        apply_posting(
            accounts,
            stripe,
            ledger,
            transaction,
            inserted,
            posting,
            steps,
        );
    }
}
