//! Feeding the texts of entries and events.

ghost use Rattle.lg_base.specs.Feeding.{Feeds};
ghost use Rattle.lg_types.specs.EntryTexts.{target_text, body_text, mark_text, key_text, entry_text as text_of_entry, event_text as text_of_event};
ghost use Rattle.lg_types.specs.RecordPartTexts.{body_part_text, entry_part_text, event_part_text};

use crate::forms::EntryForm;
use crate::parts::Part;
use crate::record_parts::{BodyPart, EntryPart, EventPart, RecordPart};
use crate::records::{Entry, EntryBody, Event, KeyMark, Target};
use lg_base::{Feed, Stop};
use lg_containers::{Canonical, feed_all};

impl Canonical for Target {
    ghost text = { target_text };

    fn feed_to<F: Feed>(&self, to: &mut F) -> Result<(), Stop> {
        match self {
            Target::Account(address) => feed_all(
                &[
                    Part::Plain(b"\"targetType\":\"ACCOUNT\",\"targetId\":"),
                    Part::Address(address),
                ],
                to,
            ),
            Target::Transaction(id) => feed_all(
                &[
                    Part::Plain(b"\"targetType\":\"TRANSACTION\",\"targetId\":"),
                    Part::Number(*id),
                ],
                to,
            ),
        }
    }
}

impl<'a> Canonical for BodyPart<'a> {
    ghost text = { body_part_text };

    fn feed_to<F: Feed>(&self, to: &mut F) -> Result<(), Stop> {
        match self {
            BodyPart::Record(part) => part.feed_to(to),
            BodyPart::Transaction(transaction) => transaction.feed_to(to),
            BodyPart::Target(target) => target.feed_to(to),
        }
    }
}

impl Canonical for EntryBody {
    ghost text = { body_text };

    fn feed_to<F: Feed>(&self, to: &mut F) -> Result<(), Stop> {
        match self {
            EntryBody::NewTransaction {
                transaction,
                accounts,
            } => feed_all(
                &[
                    BodyPart::Record(RecordPart::Base(Part::Plain(
                        b"\"type\":\"NEW_TRANSACTION\",\"data\":{\"transaction\":",
                    ))),
                    BodyPart::Transaction(transaction),
                    BodyPart::Record(RecordPart::Base(Part::Plain(b",\"accountMetadata\":"))),
                    BodyPart::Record(RecordPart::Accounts(accounts)),
                    BodyPart::Record(RecordPart::Base(Part::Plain(b"}"))),
                ],
                to,
            ),
            EntryBody::SetMetadata { target, metadata } => feed_all(
                &[
                    BodyPart::Record(RecordPart::Base(Part::Plain(
                        b"\"type\":\"SET_METADATA\",\"data\":{",
                    ))),
                    BodyPart::Target(target),
                    BodyPart::Record(RecordPart::Base(Part::Plain(b",\"metadata\":"))),
                    BodyPart::Record(RecordPart::Meta(metadata)),
                    BodyPart::Record(RecordPart::Base(Part::Plain(b"}"))),
                ],
                to,
            ),
            EntryBody::Reverted {
                reverted,
                transaction,
            } => feed_all(
                &[
                    BodyPart::Record(RecordPart::Base(Part::Plain(
                        b"\"type\":\"REVERTED_TRANSACTION\",\"data\":{\"revertedTransactionID\":",
                    ))),
                    BodyPart::Record(RecordPart::Base(Part::Number(*reverted))),
                    BodyPart::Record(RecordPart::Base(Part::Plain(b",\"transaction\":"))),
                    BodyPart::Transaction(transaction),
                    BodyPart::Record(RecordPart::Base(Part::Plain(b"}"))),
                ],
                to,
            ),
            EntryBody::DeleteMetadata { target, name } => feed_all(
                &[
                    BodyPart::Record(RecordPart::Base(Part::Plain(
                        b"\"type\":\"DELETE_METADATA\",\"data\":{",
                    ))),
                    BodyPart::Target(target),
                    BodyPart::Record(RecordPart::Base(Part::Plain(b",\"key\":"))),
                    BodyPart::Record(RecordPart::Base(Part::Text(name))),
                    BodyPart::Record(RecordPart::Base(Part::Plain(b"}"))),
                ],
                to,
            ),
        }
    }
}

impl<'a> Canonical for EntryPart<'a> {
    ghost text = { entry_part_text };

    fn feed_to<F: Feed>(&self, to: &mut F) -> Result<(), Stop> {
        match self {
            EntryPart::Base(part) => part.feed_to(to),
            EntryPart::Body(body) => body.feed_to(to),
            EntryPart::Mark(None) => to.piece(b""),
            EntryPart::Mark(Some(mark)) => feed_mark(mark, to),
            EntryPart::Key(None) => to.piece(b""),
            EntryPart::Key(Some(mark)) => feed_key(mark, to),
        }
    }
}

/// Feeds the members with the key and the hash of its input.
fn feed_mark<F: Feed>(mark: &KeyMark, to: &mut F) -> Result<(), Stop>
    ensures { Feeds F.Feed to.old to.new (mark_text mark.now) result }
{
    feed_all(
        &[
            Part::Plain(b",\"idempotencyKey\":"),
            Part::Key(&mark.key),
            Part::Plain(b",\"idempotencyHash\":"),
            Part::Hash(&mark.input_hash),
        ],
        to,
    )
}

/// Feeds the member with the key alone.
fn feed_key<F: Feed>(mark: &KeyMark, to: &mut F) -> Result<(), Stop>
    ensures { Feeds F.Feed to.old to.new (key_text mark.now) result }
{
    feed_all(
        &[Part::Plain(b",\"idempotencyKey\":"), Part::Key(&mark.key)],
        to,
    )
}

/// Feeds an entry's text of this form.
pub fn entry_text<F: Feed>(entry: &Entry, form: EntryForm, to: &mut F) -> Result<(), Stop>
    ensures { Feeds F.Feed to.old to.new (text_of_entry entry.now form) result }
{
    match form {
        EntryForm::Line => feed_line(entry, to),
        EntryForm::Chained => feed_chained(entry, to),
        EntryForm::FirstLine => feed_first_line(entry, to),
        EntryForm::FirstChained => feed_first_chained(entry, to),
    }
}

fn feed_line<F: Feed>(entry: &Entry, to: &mut F) -> Result<(), Stop>
    ensures { Feeds F.Feed to.old to.new (text_of_entry entry.now EntryForm.Line) result }
{
    feed_all(
        &[
            EntryPart::Base(Part::Plain(b"{")),
            EntryPart::Body(&entry.body),
            EntryPart::Base(Part::Plain(b",\"date\":")),
            EntryPart::Base(Part::Moment(&entry.date)),
            EntryPart::Mark(&entry.mark),
            EntryPart::Base(Part::Plain(b",\"form\":2,\"id\":")),
            EntryPart::Base(Part::Number(entry.id)),
            EntryPart::Base(Part::Plain(b",\"hash\":")),
            EntryPart::Base(Part::Hash(&entry.hash)),
            EntryPart::Base(Part::Plain(b"}")),
        ],
        to,
    )
}

fn feed_chained<F: Feed>(entry: &Entry, to: &mut F) -> Result<(), Stop>
    ensures { Feeds F.Feed to.old to.new (text_of_entry entry.now EntryForm.Chained) result }
{
    feed_all(
        &[
            EntryPart::Base(Part::Plain(b"{")),
            EntryPart::Body(&entry.body),
            EntryPart::Base(Part::Plain(b",\"date\":")),
            EntryPart::Base(Part::Moment(&entry.date)),
            EntryPart::Mark(&entry.mark),
            EntryPart::Base(Part::Plain(b",\"form\":2,\"id\":")),
            EntryPart::Base(Part::Number(entry.id)),
            EntryPart::Base(Part::Plain(b"}")),
        ],
        to,
    )
}

fn feed_first_line<F: Feed>(entry: &Entry, to: &mut F) -> Result<(), Stop>
    ensures { Feeds F.Feed to.old to.new (text_of_entry entry.now EntryForm.FirstLine) result }
{
    feed_all(
        &[
            EntryPart::Base(Part::Plain(b"{")),
            EntryPart::Body(&entry.body),
            EntryPart::Base(Part::Plain(b",\"date\":")),
            EntryPart::Base(Part::Moment(&entry.date)),
            EntryPart::Mark(&entry.mark),
            EntryPart::Base(Part::Plain(b",\"id\":")),
            EntryPart::Base(Part::Number(entry.id)),
            EntryPart::Base(Part::Plain(b",\"hash\":")),
            EntryPart::Base(Part::Hash(&entry.hash)),
            EntryPart::Base(Part::Plain(b"}")),
        ],
        to,
    )
}

fn feed_first_chained<F: Feed>(entry: &Entry, to: &mut F) -> Result<(), Stop>
    ensures { Feeds F.Feed to.old to.new (text_of_entry entry.now EntryForm.FirstChained) result }
{
    feed_all(
        &[
            EntryPart::Base(Part::Plain(b"{")),
            EntryPart::Body(&entry.body),
            EntryPart::Base(Part::Plain(b",\"date\":")),
            EntryPart::Base(Part::Moment(&entry.date)),
            EntryPart::Key(&entry.mark),
            EntryPart::Base(Part::Plain(b",\"id\":")),
            EntryPart::Base(Part::Number(entry.id)),
            EntryPart::Base(Part::Plain(b"}")),
        ],
        to,
    )
}

impl<'a> Canonical for EventPart<'a> {
    ghost text = { event_part_text };

    fn feed_to<F: Feed>(&self, to: &mut F) -> Result<(), Stop> {
        match self {
            EventPart::Base(part) => part.feed_to(to),
            EventPart::Ledger(info) => info.feed_to(to),
            EventPart::Entry(entry) => entry_text(entry, EntryForm::Line, to),
        }
    }
}

/// Feeds an event with its place, from 0 on, as a line without its end.
pub fn event_text<F: Feed>(place: u64, event: &Event, to: &mut F) -> Result<(), Stop>
    ensures { Feeds F.Feed to.old to.new (text_of_event place event.now) result }
{
    match event {
        Event::Made(info) => feed_all(
            &[
                EventPart::Base(Part::Plain(b"{\"event\":")),
                EventPart::Base(Part::Number(place)),
                EventPart::Base(Part::Plain(b",\"made\":")),
                EventPart::Ledger(info),
                EventPart::Base(Part::Plain(b"}")),
            ],
            to,
        ),
        Event::Logged { ledger, entry } => feed_all(
            &[
                EventPart::Base(Part::Plain(b"{\"event\":")),
                EventPart::Base(Part::Number(place)),
                EventPart::Base(Part::Plain(b",\"ledger\":")),
                EventPart::Base(Part::LedgerName(ledger)),
                EventPart::Base(Part::Plain(b",\"entry\":")),
                EventPart::Entry(entry),
                EventPart::Base(Part::Plain(b"}")),
            ],
            to,
        ),
    }
}
