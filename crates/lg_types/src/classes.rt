//! The classes of resources that calls share.

/// What kind of thing a resource is. An account, a key and a reference of one name are three resources.
#[derive(Clone, Copy, PartialEq, Eq)]
pub enum Class {
    Account,
    Key,
    Reference,
}
