//! Feeding the texts of writes.

ghost use Rattle.lg_base.specs.Feeding.{Feeds};
ghost use Rattle.lg_types.specs.PartTexts.{optional_text};
ghost use Rattle.lg_types.specs.CallTexts.{truth_text, timestamp_text, call_text as text_of_call};
ghost use Rattle.lg_types.specs.CallPartTexts.{call_part_text};

use crate::call_parts::CallPart;
use crate::calls::Write;
use crate::parts::Part;
use crate::record_parts::{BodyPart, RecordPart};
use lg_base::{Feed, Stop};
use lg_containers::{Canonical, feed_all};

/// Feeds `true` or `false`.
fn feed_truth<F: Feed>(truth: bool, to: &mut F) -> Result<(), Stop>
    ensures { Feeds F.Feed to.old to.new (truth_text truth) result }
{
    match truth {
        true => to.piece(b"true"),
        false => to.piece(b"false"),
    }
}

/// Feeds the member with the timestamp, and nothing where there is none.
fn feed_timestamp<F: Feed>(timestamp: &Option<i64>, to: &mut F) -> Result<(), Stop>
    ensures { Feeds F.Feed to.old to.new (optional_text timestamp_text timestamp.now) result }
{
    match timestamp {
        None => to.piece(b""),
        Some(timestamp) => feed_all(
            &[Part::Plain(b",\"timestamp\":"), Part::Moment(timestamp)],
            to,
        ),
    }
}

impl<'a> Canonical for CallPart<'a> {
    ghost text = { call_part_text };

    fn feed_to<F: Feed>(&self, to: &mut F) -> Result<(), Stop> {
        match self {
            CallPart::Body(part) => part.feed_to(to),
            CallPart::Truth(truth) => feed_truth(*truth, to),
            CallPart::Timestamp(timestamp) => feed_timestamp(timestamp, to),
        }
    }
}

impl Canonical for Write {
    ghost text = { text_of_call };

    fn feed_to<F: Feed>(&self, to: &mut F) -> Result<(), Stop> {
        match self {
            Write::Create {
                postings,
                reference,
                timestamp,
                metadata,
                accounts,
                force,
            } => feed_all(
                &[
                    CallPart::Body(BodyPart::Record(RecordPart::Base(Part::Plain(
                        b"{\"action\":\"CREATE_TRANSACTION\",\"data\":{\"postings\":",
                    )))),
                    CallPart::Body(BodyPart::Record(RecordPart::Postings(postings))),
                    CallPart::Body(BodyPart::Record(RecordPart::Reference(reference))),
                    CallPart::Timestamp(timestamp),
                    CallPart::Body(BodyPart::Record(RecordPart::Base(Part::Plain(
                        b",\"metadata\":",
                    )))),
                    CallPart::Body(BodyPart::Record(RecordPart::Meta(metadata))),
                    CallPart::Body(BodyPart::Record(RecordPart::Base(Part::Plain(
                        b",\"accountMetadata\":",
                    )))),
                    CallPart::Body(BodyPart::Record(RecordPart::Accounts(accounts))),
                    CallPart::Body(BodyPart::Record(RecordPart::Base(Part::Plain(b",\"force\":")))),
                    CallPart::Truth(*force),
                    CallPart::Body(BodyPart::Record(RecordPart::Base(Part::Plain(b"}}")))),
                ],
                to,
            ),
            Write::Revert {
                id,
                force,
                at_effective_date,
            } => feed_all(
                &[
                    CallPart::Body(BodyPart::Record(RecordPart::Base(Part::Plain(
                        b"{\"action\":\"REVERT_TRANSACTION\",\"data\":{\"id\":",
                    )))),
                    CallPart::Body(BodyPart::Record(RecordPart::Base(Part::Number(*id)))),
                    CallPart::Body(BodyPart::Record(RecordPart::Base(Part::Plain(b",\"force\":")))),
                    CallPart::Truth(*force),
                    CallPart::Body(BodyPart::Record(RecordPart::Base(Part::Plain(
                        b",\"atEffectiveDate\":",
                    )))),
                    CallPart::Truth(*at_effective_date),
                    CallPart::Body(BodyPart::Record(RecordPart::Base(Part::Plain(b"}}")))),
                ],
                to,
            ),
            Write::SetMeta { target, metadata } => feed_all(
                &[
                    CallPart::Body(BodyPart::Record(RecordPart::Base(Part::Plain(
                        b"{\"action\":\"ADD_METADATA\",\"data\":{",
                    )))),
                    CallPart::Body(BodyPart::Target(target)),
                    CallPart::Body(BodyPart::Record(RecordPart::Base(Part::Plain(
                        b",\"metadata\":",
                    )))),
                    CallPart::Body(BodyPart::Record(RecordPart::Meta(metadata))),
                    CallPart::Body(BodyPart::Record(RecordPart::Base(Part::Plain(b"}}")))),
                ],
                to,
            ),
            Write::DropMeta { target, name } => feed_all(
                &[
                    CallPart::Body(BodyPart::Record(RecordPart::Base(Part::Plain(
                        b"{\"action\":\"DELETE_METADATA\",\"data\":{",
                    )))),
                    CallPart::Body(BodyPart::Target(target)),
                    CallPart::Body(BodyPart::Record(RecordPart::Base(Part::Plain(b",\"key\":")))),
                    CallPart::Body(BodyPart::Record(RecordPart::Base(Part::Text(name)))),
                    CallPart::Body(BodyPart::Record(RecordPart::Base(Part::Plain(b"}}")))),
                ],
                to,
            ),
        }
    }
}

/// Feeds the canonical text of a write, over which the hash of a key's request is taken. It names no ledger and no key.
pub fn call_text<F: Feed>(write: &Write, to: &mut F) -> Result<(), Stop>
    ensures { Feeds F.Feed to.old to.new (text_of_call write.now) result }
{
    write.feed_to(to)
}
