//! Changes of metadata.

ghost use Rattle.std.specs.Prelude.{◌≡◌};
ghost use Rattle.std.specs.Option.{option_copied};
ghost use Rattle.lg_meta.specs.Index.{value_of as value_of_name};

use lg_containers::Text;
use lg_types::MetaChange;

/// A change that was applied, or is to be.
#[derive(Drop)]
pub struct DatedChange {
    /// When the change was applied, in microseconds since 1970-01-01T00:00:00Z.
    pub date: i64,
    pub change: MetaChange,
}

// What the change makes of a name that it sets or drops.
pub(crate) fn value_of<'a>(change: &'a MetaChange, name: &[u8]) -> Option<&'a Text>
    ensures { option_copied result ≡ value_of_name name.now change.now }
{
    match change {
        MetaChange::Set(meta) => meta.find(name),
        MetaChange::Drop(_) => None,
    }
}
