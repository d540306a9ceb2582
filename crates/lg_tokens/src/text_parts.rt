//! The pieces of a token's text.

use lg_types::{
    After as Place, Expand as Shown, Field as Compared, Filter as Wanted, ListKind, Part,
    Value as Given,
};

/// A piece of a text with strings in it.
#[derive(Clone, Copy)]
pub enum TextPart<'a> {
    Base(Part<'a>),
    /// A JSON string of the bytes.
    Quoted(&'a [u8]),
    /// What stands between the quotes of a JSON string of the bytes.
    Escaped(&'a [u8]),
}

/// A piece of a comparison's text.
#[derive(Clone, Copy)]
pub enum ComparedPart<'a> {
    Text(TextPart<'a>),
    /// The name of a field, as a JSON string.
    Field(&'a Compared),
    /// What a field is compared with.
    Value(&'a Given),
}

/// A piece of a token's text. Each of the members begins with its comma, and is nothing where the query has no such member.
#[derive(Clone, Copy)]
pub enum TokenPart<'a> {
    Text(TextPart<'a>),
    /// The name of a kind of list, as a JSON string.
    Kind(ListKind),
    /// The member with the date at which a list is looked at.
    Pit(&'a Option<i64>),
    /// The member with the earliest date.
    Start(&'a Option<i64>),
    /// The member with the latest date.
    End(&'a Option<i64>),
    /// The member that says that dates are those of insertion.
    ByInsertion(bool),
    /// The member with the number of segments that addresses are cut to.
    Group(u32),
    /// The member with the volumes that are shown.
    Expand(Shown),
    /// The member with the filter.
    Filter(&'a Wanted),
    /// The place after which the page begins.
    After(&'a Place),
}
