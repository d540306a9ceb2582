//! Where something stands in a body.

use lg_types::Text;

/// Where members are looked for.
#[derive(Clone, Copy)]
pub enum Base {
    /// The body itself.
    Body,
    /// Under `data`.
    Data,
    /// Under `data.transaction`.
    Transaction,
}

/// What has members of any name, or what stands under a member.
#[derive(Clone, Copy)]
pub enum Holder<'a> {
    Whole(Base),
    /// What stands under a member.
    Member(Base, &'a str),
    /// What stands under an address in `accountMetadata`.
    Account(Base, &'a Text),
}

/// Where something stands.
#[derive(Clone, Copy)]
pub enum Path<'a> {
    Holder(Holder<'a>),
    /// An item of `postings`, counted from 0.
    Posting(Base, u64),
    /// A member of an item of `postings`.
    PostingMember(Base, u64, &'a str),
    /// A member of any name.
    Named(Holder<'a>, &'a Text),
}
