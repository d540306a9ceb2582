//! Events of payments on the ledger `default`.

ghost use Rattle.std.specs.Prelude.{◌≡◌, ℕ, ◌<◌, ◌∷◌, [], true, IfOk};
ghost use Rattle.lg_types.specs.Parts.{untouched};
ghost use Rattle.lg_turns_plain.specs.Payments.{account_stripe, TouchesBoth};

use lg_base::Amount;
use lg_containers::{AccountMeta, Address, Asset, Bucket, LedgerName, Meta, NameFault};
use lg_types::{Entry, EntryBody, Event, LedgerInfo, Posting, Postings, Transaction};
use std::alloc::Global;

/// An account of the ledger `default`, with its stripe.
#[derive(Clone, Copy)]
pub struct Account<'a> {
    pub name: &'a [u8],
    pub stripe: u8,
    pub ghost placed: { account_stripe name.now ≡ stripe },
    pub ghost below: { stripe < 16 },
}

/// The event that every list begins with: the ledger `default` is made.
pub fn opening(alloc: Global) -> Result<Event, NameFault>
    ensures { IfOk result (λ event. (k : ℕ) → untouched k (event ∷ []) ≡ true) }
{
    Ok(Event::Made(LedgerInfo {
        name: LedgerName::read(alloc, b"default")?,
        bucket: Bucket::read(alloc, b"_default")?,
        metadata: Meta::new(alloc),
        added: 0,
    }))
}

fn posting(alloc: Global, source: &[u8], destination: &[u8]) -> Result<Posting, NameFault>
    ensures { IfOk result (λ p. (p.source ≡ source.now) × (p.destination ≡ destination.now)) }
{
    let source = Address::read(alloc, source)?;
    let destination = Address::read(alloc, destination)?;
    let asset = Asset::read(alloc, b"USD/2")?;
    let amount = match Amount::of(100) {
        Some(amount) => amount,
        None => unreachable!(),
    };
    Ok(Posting {
        source,
        destination,
        asset,
        amount,
    })
}

/// A payment from one account to another.
pub fn payment(alloc: Global, from: Account<'_>, to: Account<'_>) -> Result<Event, NameFault>
    ensures { IfOk result (λ event. TouchesBoth from.entry.stripe to.entry.stripe event) }
{
    let ledger = LedgerName::read(alloc, b"default")?;
    let posting = posting(alloc, from.name, to.name)?;
    let transaction = Transaction {
        id: 1,
        postings: Postings::of(alloc, posting)?,
        metadata: Meta::new(alloc),
        reference: None,
        timestamp: 0,
    };
    let entry = Entry {
        id: 1,
        date: 0,
        mark: None,
        body: EntryBody::NewTransaction {
            transaction,
            accounts: AccountMeta::new(alloc),
        },
        hash: [0; 32],
    };
    Ok(Event::Logged { ledger, entry })
}
