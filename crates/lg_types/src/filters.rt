//! Filters of lists, and places in them.

ghost use Rattle.std.specs.Prelude.{◌≡◌, IfOk};

use lg_base::NoMemory;
use lg_containers::{Address, Asset, Duplicate, Text};
use sqlite_items::{Boxed, Items};
use std::alloc::Global;

/// What can be listed or summed up.
#[derive(Clone, Copy, PartialEq, Eq)]
pub enum ListKind {
    Ledgers,
    Accounts,
    Transactions,
    Logs,
    Volumes,
    Aggregate,
}

/// The place after which a page begins.
#[derive(Drop)]
pub enum After {
    /// The place of a ledger's event, or the id of a transaction or of an entry.
    Place(u64),
    Address(Address),
    Pair { account: Address, asset: Asset },
}

#[derive(Clone, Copy, PartialEq, Eq)]
pub enum Op {
    Equal,
    Less,
    LessEqual,
    Greater,
    GreaterEqual,
}

/// What a filter looks at in an item.
#[derive(Drop)]
pub enum Field {
    Address,
    Account,
    Source,
    Destination,
    Reference,
    Id,
    Timestamp,
    Date,
    Reverted,
    /// The value of the name.
    Metadata(Text),
    Balance(Asset),
}

/// What a filter compares with.
#[derive(Drop)]
pub enum Value {
    Text(Text),
    Whole(i128),
    /// In microseconds since 1970-01-01T00:00:00Z.
    Moment(i64),
    Truth(bool),
}

/// Which items of a list are wanted.
#[cycle(filters)]
#[derive(Drop)]
pub enum Filter {
    All,
    Compare { op: Op, field: Field, value: Value },
    /// The metadata have the name.
    Has(Text),
    /// Every one of these.
    Both(FilterList),
    /// One of these at least.
    Either(FilterList),
    Not(Boxed<Filter>),
}

/// Filters, in their order.
pub type FilterList = Items<Filter>;

impl Duplicate for After {
    fn copy(&self, alloc: Global) -> Result<After, NoMemory> {
        match self {
            After::Place(place) => Ok(After::Place(*place)),
            After::Address(address) => Ok(After::Address(address.copy(alloc)?)),
            After::Pair { account, asset } => Ok(After::Pair {
                account: account.copy(alloc)?,
                asset: asset.copy(alloc)?,
            }),
        }
    }
}

impl Duplicate for Field {
    fn copy(&self, alloc: Global) -> Result<Field, NoMemory> {
        match self {
            Field::Address => Ok(Field::Address),
            Field::Account => Ok(Field::Account),
            Field::Source => Ok(Field::Source),
            Field::Destination => Ok(Field::Destination),
            Field::Reference => Ok(Field::Reference),
            Field::Id => Ok(Field::Id),
            Field::Timestamp => Ok(Field::Timestamp),
            Field::Date => Ok(Field::Date),
            Field::Reverted => Ok(Field::Reverted),
            Field::Metadata(name) => Ok(Field::Metadata(name.copy(alloc)?)),
            Field::Balance(asset) => Ok(Field::Balance(asset.copy(alloc)?)),
        }
    }
}

impl Duplicate for Value {
    fn copy(&self, alloc: Global) -> Result<Value, NoMemory> {
        match self {
            Value::Text(text) => Ok(Value::Text(text.copy(alloc)?)),
            Value::Whole(number) => Ok(Value::Whole(*number)),
            Value::Moment(moment) => Ok(Value::Moment(*moment)),
            Value::Truth(truth) => Ok(Value::Truth(*truth)),
        }
    }
}

impl Duplicate for Filter {
    fn copy(&self, alloc: Global) -> Result<Filter, NoMemory> {
        copy_filter(alloc, self)
    }
}

#[cycle(filter_copies)]
fn copy_filter(alloc: Global, filter: &Filter) -> Result<Filter, NoMemory>
    ensures { IfOk result (λ copied. copied ≡ filter.now) }
{
    match filter {
        Filter::All => Ok(Filter::All),
        Filter::Compare { op, field, value } => Ok(Filter::Compare {
            op: *op,
            field: field.copy(alloc)?,
            value: value.copy(alloc)?,
        }),
        Filter::Has(name) => Ok(Filter::Has(name.copy(alloc)?)),
        Filter::Both(filters) => Ok(Filter::Both(copy_filters(alloc, filters)?)),
        Filter::Either(filters) => Ok(Filter::Either(copy_filters(alloc, filters)?)),
        Filter::Not(filter) => Ok(Filter::Not(Boxed::new(
            alloc,
            copy_filter(alloc, filter.get())?,
        )?)),
    }
}

/// Copies of the filters, in their order.
#[cycle(filter_copies)]
pub fn copy_filters(alloc: Global, filters: &FilterList) -> Result<FilterList, NoMemory>
    ensures { IfOk result (λ copied. copied ≡ filters.now) }
{
    let mut copied = Items::new(alloc);
    for filter in filters.as_slice() {
        copied.push(copy_filter(alloc, filter)?)?;
    }
    Ok(copied)
}
