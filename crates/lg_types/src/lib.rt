//! The records of a ledger, and the definitions that every contract above cites.
#![tactic(auto)]

mod balances;
mod call_parts;
mod call_texts;
mod calls;
mod changes;
mod classes;
mod copies;
mod elements;
mod entry_texts;
mod filters;
mod forms;
pub mod laws;
mod marks;
mod moves;
mod part_texts;
mod parts;
mod postings;
mod queries;
mod record_parts;
mod record_texts;
mod records;
mod refusals;

pub use balances::Balances;
pub use call_parts::CallPart;
pub use call_texts::call_text;
pub use calls::{Batch, Call, Element, ElementWrite, Write};
pub use changes::MetaChange;
pub use classes::Class;
pub use elements::{Elements, MOST_ELEMENTS};
pub use entry_texts::{entry_text, event_text};
pub use filters::{After, Field, Filter, FilterList, ListKind, Op, Value, copy_filters};
pub use forms::EntryForm;
pub use lg_base::{Amount, NoMemory, Volumes};
pub use lg_containers::{
    AccountMeta, Address, Asset, Bucket, Duplicate, Key, LedgerName, List, Meta, NameFault,
    NameMap, Reference, Text,
};
pub use marks::{Mark, Marked};
pub use moves::Move;
pub use part_texts::bring;
pub use parts::Part;
pub use postings::Postings;
pub use queries::{Expand, Query, Read, Span};
pub use record_parts::RecordPart;
pub use records::{Entry, EntryBody, Event, KeyMark, LedgerInfo, Posting, Target, Transaction};
pub use refusals::{FaultKind, ImportCause, Reason, Refusal};

/// The entries of a log.
pub type Entries = List<Entry>;
