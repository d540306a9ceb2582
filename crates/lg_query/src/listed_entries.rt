//! The entries of a log, the last first.

ghost use Rattle.std.specs.Prelude.{◌≡◌, ◌<◌, ◌≤◌, ℕ, length, reverse, int_le, nat_lt, slice_get, Some, IfSome};
ghost use Rattle.std.specs.List.{filter};
ghost use Rattle.lg_types.specs.declared.filters.After.TheVariants.{Place};
ghost use Rattle.lg_types.specs.declared.records.Entry.{Entry};
ghost use Rattle.lg_types.specs.Log.{log};
ghost use Rattle.lg_views.specs.Filters.{entry_atom, no_name};
ghost use Rattle.lg_views.specs.Reads.{is_after_entry, is_dated_to, entry_place, entry_passes};
ghost use Rattle.lg_select.specs.Listing.{first_of};
ghost use Rattle.lg_book.specs.Reading.{find_entry};
ghost use Rattle.lg_views.specs.PageLaws.{IsInOrder};
ghost use Rattle.lg_query.specs.Newest.{newest_first};
ghost use Rattle.lg_query.specs.Places.{entries_go_on};

use lg_base::NoMemory;
use lg_book::Book;
use lg_containers::{Duplicate, LedgerName};
use lg_select::{Filtered, Listing, compares, passes};
use lg_types::{After, Entry, Field, Filter, Op, Value};
use std::alloc::Global;
use std::marker::Model;

/// An entry of a list, seen as the entry.
#[derive(Drop)]
pub struct ListedEntry<'a> {
    entry: &'a Entry,
}

impl<'a> Model for ListedEntry<'a> {
    ghost use Rattle.lg_types.specs.declared.records.Entry.{Entry};

    ghost Value = { Entry };

    ghost view = { λ e. e.entry.now };
}

impl<'a> ListedEntry<'a> {
    /// The id of the entry.
    pub fn id(&self) -> u64
        ensures { result ≡ self.now.id }
    {
        self.entry.id
    }
}

/// The first entries of a ledger's log, the last of them first.
#[derive(Drop)]
pub struct EntryListing<'a> {
    book: &'a Book,
    ledger: &'a LedgerName,
    count: u64,
}

impl<'a> Model for EntryListing<'a> {
    ghost use Rattle.lg_types.specs.Log.{log};
    ghost use Rattle.lg_query.specs.Newest.{ShownLog, IsShown};

    ghost Value = { ShownLog };

    ghost view = { λ l. record { log = log l.book.now.events l.ledger.now; count = l.count } };

    ghost invariant = { λ l. IsShown (log l.book.now.events l.ledger.now) l.count };
}

impl<'a> EntryListing<'a> {
    /// The entries of the ledger up to the date, all where none is given; the last first.
    pub fn dated(book: &'a Book, ledger: &'a LedgerName, date: &Option<i64>) -> EntryListing<'a>
        ensures log { result.log ≡ log book.now.events ledger.now }
        ensures entries { newest_first result.count result.log ≡ filter (is_dated_to date.now) (reverse result.log) }
    {
        let _grown = book.len();
        let count = shown_count(book, ledger, date);
        EntryListing {
            book,
            ledger,
            count,
        }
    }

    // The entries stand in the order of their places.
    fn in_order(&self)
        ensures { IsInOrder is_after_entry entry_place (newest_first self.now.count self.now.log) }
    {
        let _count = self.count;
    }

    // The last of the first entries, as many as are given.
    fn last_of(&self, count: u64) -> Option<ListedEntry<'a>>
        requires { count ≤ length self.now.log }
        ensures { result ≡ first_of (newest_first count self.now.log) }
    {
        match self.book.entry(self.ledger, count) {
            Some(entry) => Some(ListedEntry { entry }),
            None => None,
        }
    }

    // The newest entry whose id is below the given one.
    fn before(&self, id: u64) -> Option<ListedEntry<'a>>
        ensures { result ≡ first_of (filter (is_after_entry (Place id)) (newest_first self.now.count self.now.log)) }
    {
        self.last_of(self.count.min(id.saturating_sub(1)))
    }
}

impl<'a> EntryListing<'a> {
    // The newest entry after the place.
    fn after(&self, after: &After) -> Option<ListedEntry<'a>>
        ensures { result ≡ first_of (filter (is_after_entry after.now) (newest_first self.now.count self.now.log)) }
    {
        match after {
            After::Place(id) => self.before(*id),
            After::Address(_) => None,
            After::Pair { .. } => None,
        }
    }
}

impl<'a> Listing for EntryListing<'a> {
    type Item = ListedEntry<'a>;

    type View = Entry;

    ghost items = { λ l. newest_first l.count l.log };

    ghost is_after = { is_after_entry };

    ghost place = { entry_place };

    ghost passes = { λ l. entry_passes };

    ghost shown = { λ l e. e };

    fn first(&self, after: Option<&After>) -> Option<ListedEntry<'a>> {
        self.in_order();
        match after {
            None => self.last_of(self.count),
            Some(after) => self.after(after),
        }
    }

    fn next(&self, item: &ListedEntry<'a>) -> Option<ListedEntry<'a>> {
        self.in_order();
        self.before(item.id())
    }

    fn is_wanted(&self, item: &ListedEntry<'a>, filter: &Filter) -> bool {
        passes(item, filter)
    }

    fn view(&self, alloc: Global, item: &ListedEntry<'a>) -> Result<Entry, NoMemory> {
        item.entry.copy(alloc)
    }

    ghost transitive = { entries_go_on };
}

impl<'a> Filtered for ListedEntry<'a> {
    ghost compares = { entry_atom };

    ghost names = { λ e. no_name };

    fn holds(&self, op: Op, field: &Field, value: &Value) -> bool {
        match (field, value) {
            (Field::Id, Value::Whole(number)) => {
                compares(op, i128::from(self.entry.id), *number)
            }
            (Field::Date, Value::Moment(moment)) => {
                compares(op, i128::from(self.entry.date), i128::from(*moment))
            }
            _ => false,
        }
    }

    fn has_name(&self, _name: &[u8]) -> bool {
        false
    }
}

// How many entries the ledger has.
fn count(book: &Book, ledger: &LedgerName) -> u64
    ensures { result ≡ length (log book.now.events ledger.now) }
{
    let _grown = book.len();
    match book.log_len(ledger) {
        Some(count) => count,
        None => 0,
    }
}

// How many of the first entries are of the date or before; all where no date is given.
fn shown_count(book: &Book, ledger: &LedgerName, date: &Option<i64>) -> u64
    ensures within { result ≤ length (log book.now.events ledger.now) }
    ensures entries { newest_first result (log book.now.events ledger.now) ≡ filter (is_dated_to date.now) (reverse (log book.now.events ledger.now)) }
{
    match date {
        None => count(book, ledger),
        Some(date) => count_to(book, ledger, date),
    }
}

// Whether a date is not after another.
fn is_up_to(date: i64, last: i64) -> bool
    ensures { result ≡ int_le date last }
{
    date <= last
}

// Whether the entry of the id is of the date or before.
fn is_dated(book: &Book, ledger: &LedgerName, id: u64, date: &i64) -> bool
    ensures { (e : Entry) → find_entry (log book.now.events ledger.now) id ≡ Some e → result ≡ int_le e.date date.now }
{
    match book.entry(ledger, id) {
        Some(entry) => is_up_to(entry.date, *date),
        None => false,
    }
}

// How many of the first entries are of the date or before. Dates never fall, so no other entry is.
fn count_to(book: &Book, ledger: &LedgerName, date: &i64) -> u64
    ensures dated { (k : ℕ) (e : Entry) → slice_get (log book.now.events ledger.now) k ≡ Some e → int_le e.date date.now ≡ nat_lt k result }
    ensures within { result ≤ length (log book.now.events ledger.now) }
{
    let _grown = book.len();
    let mut low = 0;
    let mut high = count(book, ledger);
    'halving: while low < high {
        let middle = low + (high - low) / 2;
        if is_dated(book, ledger, middle + 1, date) {
            low = middle + 1;
        } else {
            high = middle;
        }
    }
    low
}
