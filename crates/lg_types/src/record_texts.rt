//! Feeding the texts of postings, transactions and ledgers.

ghost use Rattle.lg_base.specs.Feeding.{Feeds};
ghost use Rattle.lg_types.specs.PartTexts.{optional_text};
ghost use Rattle.lg_types.specs.EntryTexts.{posting_text, reference_text, transaction_text, ledger_text};
ghost use Rattle.lg_types.specs.RecordPartTexts.{record_part_text};

use crate::parts::Part;
use crate::record_parts::RecordPart;
use crate::records::{LedgerInfo, Posting, Transaction};
use lg_base::{Feed, Stop};
use lg_containers::{Canonical, Reference, feed_all, feed_list};

impl Canonical for Posting {
    ghost text = { posting_text };

    fn feed_to<F: Feed>(&self, to: &mut F) -> Result<(), Stop> {
        feed_all(
            &[
                Part::Plain(b"{\"source\":"),
                Part::Address(&self.source),
                Part::Plain(b",\"destination\":"),
                Part::Address(&self.destination),
                Part::Plain(b",\"amount\":"),
                Part::Amount(self.amount),
                Part::Plain(b",\"asset\":"),
                Part::Asset(&self.asset),
                Part::Plain(b"}"),
            ],
            to,
        )
    }
}

impl<'a> Canonical for RecordPart<'a> {
    ghost text = { record_part_text };

    fn feed_to<F: Feed>(&self, to: &mut F) -> Result<(), Stop> {
        match self {
            RecordPart::Base(part) => part.feed_to(to),
            RecordPart::Postings(postings) => feed_list(postings.as_slice(), to),
            RecordPart::Meta(metadata) => metadata.feed_to(to),
            RecordPart::Accounts(accounts) => accounts.feed_to(to),
            RecordPart::Reference(reference) => feed_reference(reference, to),
        }
    }
}

/// Feeds the member with the reference, and nothing where there is none.
fn feed_reference<F: Feed>(reference: &Option<Reference>, to: &mut F) -> Result<(), Stop>
    ensures { Feeds F.Feed to.old to.new (optional_text reference_text reference.now) result }
{
    match reference {
        None => to.piece(b""),
        Some(reference) => feed_all(
            &[Part::Plain(b",\"reference\":"), Part::Reference(reference)],
            to,
        ),
    }
}

impl Canonical for Transaction {
    ghost text = { transaction_text };

    fn feed_to<F: Feed>(&self, to: &mut F) -> Result<(), Stop> {
        feed_all(
            &[
                RecordPart::Base(Part::Plain(b"{\"id\":")),
                RecordPart::Base(Part::Number(self.id)),
                RecordPart::Base(Part::Plain(b",\"postings\":")),
                RecordPart::Postings(&self.postings),
                RecordPart::Base(Part::Plain(b",\"metadata\":")),
                RecordPart::Meta(&self.metadata),
                RecordPart::Reference(&self.reference),
                RecordPart::Base(Part::Plain(b",\"timestamp\":")),
                RecordPart::Base(Part::Moment(&self.timestamp)),
                RecordPart::Base(Part::Plain(b"}")),
            ],
            to,
        )
    }
}

impl Canonical for LedgerInfo {
    ghost text = { ledger_text };

    fn feed_to<F: Feed>(&self, to: &mut F) -> Result<(), Stop> {
        feed_all(
            &[
                RecordPart::Base(Part::Plain(b"{\"name\":")),
                RecordPart::Base(Part::LedgerName(&self.name)),
                RecordPart::Base(Part::Plain(b",\"addedAt\":")),
                RecordPart::Base(Part::Moment(&self.added)),
                RecordPart::Base(Part::Plain(b",\"bucket\":")),
                RecordPart::Base(Part::Bucket(&self.bucket)),
                RecordPart::Base(Part::Plain(b",\"metadata\":")),
                RecordPart::Meta(&self.metadata),
                RecordPart::Base(Part::Plain(b"}")),
            ],
            to,
        )
    }
}
