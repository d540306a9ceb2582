use crate::json::Json;
use crate::object::OpenObject;
use lg_containers::utf8::Utf8State;
use sqlite_items::{Boxed, Items};

/// A list or an object that is open.
#[derive(Drop)]
pub enum Frame {
    List(Items<Json>),
    Object(OpenObject),
}

/// The lists and objects that are open, the innermost last.
pub type OpenFrames = Vec<Frame>;

/// Where the reading of a text stands, between its quotes.
#[derive(Clone, Copy)]
pub enum TextMode {
    /// In a character that stands for itself.
    Character(Utf8State),
    /// After a backslash.
    Escape,
    /// In a `\u` escape: the digits to come, from 4 to 1, and the value of those before.
    Unit(u8, u16),
    /// After an escape that is a high surrogate, whose low surrogate has to follow.
    AfterHigh(u16),
    AfterHighEscape(u16),
    /// In the escape of the low surrogate: the high one, and as for `Unit`.
    Low(u16, u8, u16),
}

/// What comes next.
#[derive(Drop)]
pub enum Next {
    Value,
    /// A list's first item, or its end.
    First,
    /// An object's first name, or its end.
    FirstName,
    Name,
    Colon,
    /// After an item of a list or a member of an object.
    Comma,
    /// Nothing: the whole value.
    End(Boxed<Json>),
}
