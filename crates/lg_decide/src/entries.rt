//! The next entry of a log.

ghost use Rattle.std.specs.Prelude.{◌≡◌, ◌+◌, ◌^◌, ◌<◌, List, length, replicate};
ghost use Rattle.lg_types.specs.declared.forms.EntryForm.TheVariants.{Chained};
ghost use Rattle.lg_types.specs.declared.records.Entry.{Entry};
ghost use Rattle.lg_types.specs.Chain.{head as head_of, line_hash};
ghost use Rattle.lg_views.specs.Writes.{new_entry as next_entry};

use lg_chain::seal;
use lg_types::{Entry, EntryBody, KeyMark};

/// The entry that a log of so many entries takes next: `head` is the hash of its last entry, and `date` the new entry's
/// date in microseconds since 1970-01-01T00:00:00Z.
pub fn new_entry(
    entries: u64,
    head: Option<[u8; 32]>,
    date: &i64,
    mark: Option<KeyMark>,
    body: EntryBody,
) -> Entry
    requires { entries + 1 < 2 ^ 64 }
    ensures { (g : List Entry) → entries ≡ length g → head ≡ head_of g → result ≡ next_entry g date.now mark body }
{
    sealed(head, unsealed(entries, date, mark, body))
}

/// The next entry of a log of so many entries, without its hash.
fn unsealed(entries: u64, date: &i64, mark: Option<KeyMark>, body: EntryBody) -> Entry
    requires { entries + 1 < 2 ^ 64 }
    ensures { result ≡ record { id = entries + 1; date = date.now; mark = mark; body = body; hash = replicate 32 0 } }
{
    Entry {
        id: entries + 1,
        date: *date,
        mark,
        body,
        hash: [0; 32],
    }
}

/// The entry with its hash after the hash of the entry before it.
fn sealed(head: Option<[u8; 32]>, entry: Entry) -> Entry
    ensures { result ≡ record entry { hash = line_hash Chained head entry } }
{
    let hash = seal(head, &entry);
    let Entry {
        id,
        date,
        mark,
        body,
        hash: _,
    } = entry;
    Entry {
        id,
        date,
        mark,
        body,
        hash,
    }
}
