use lg_containers::Text;
use sqlite_items::Items;
use std::alloc::AllocError;

/// A JSON value whose numbers are whole.
#[cycle(json)]
#[derive(Drop)]
pub enum Json {
    Null,
    Truth(bool),
    Whole(i128),
    Text(Text),
    List(JsonList),
    Members(MemberList),
}

/// A member of an object.
#[cycle(json)]
#[derive(Drop)]
pub struct Member {
    pub name: Text,
    pub value: Json,
}

/// The items of a list, in their order.
pub type JsonList = Items<Json>;

/// The members of an object, in their order.
pub type MemberList = Items<Member>;

/// Why a text isn't read. A place counts bytes from 0.
#[derive(Debug, PartialEq, Eq, Drop)]
pub enum JsonFault {
    /// The bytes are no JSON text: the place is the length of the longest prefix that begins one.
    Syntax { place: usize },
    /// A number has a fraction or an exponent: the place of its first byte.
    NotWhole { place: usize },
    /// A whole number is outside -2^127 to 2^127 - 1: the place of its first byte.
    TooWide { place: usize },
    /// The place of the 65th list or object that is open at once.
    TooDeep { place: usize },
    /// The place of the first quote of a name that stands in the object already.
    Repeated { place: usize },
    NoMemory,
}

impl From<AllocError> for JsonFault {
    ghost use Rattle.std.specs.Prelude.{◌≡◌};
    ghost use Rattle.lg_json.specs.declared.json.JsonFault.TheVariants.{NoMemory};

    ghost from_gives = { λ _ f. f ≡ NoMemory };

    fn from(_: AllocError) -> JsonFault {
        JsonFault::NoMemory
    }
}
