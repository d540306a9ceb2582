//! What each list compares.

ghost use Rattle.std.specs.Prelude.{◌≡◌};
ghost use Rattle.lg_types.specs.declared.filters.ListKind.TheVariants.{Accounts, Transactions, Logs, Volumes, Aggregate};
ghost use Rattle.lg_readings.specs.FilterReadings as spec;

use lg_types::{Field, ListKind, Op};

fn matches_accounts(field: &Field) -> bool
    ensures { result ≡ spec.is_matched Accounts field.now }
{
    match field {
        Field::Address | Field::Metadata(_) | Field::Balance(_) => true,
        Field::Account
        | Field::Source
        | Field::Destination
        | Field::Reference
        | Field::Id
        | Field::Timestamp
        | Field::Date
        | Field::Reverted => false,
    }
}

fn matches_transactions(field: &Field) -> bool
    ensures { result ≡ spec.is_matched Transactions field.now }
{
    match field {
        Field::Reference
        | Field::Account
        | Field::Source
        | Field::Destination
        | Field::Id
        | Field::Timestamp
        | Field::Reverted
        | Field::Metadata(_) => true,
        Field::Address | Field::Date | Field::Balance(_) => false,
    }
}

fn matches_logs(field: &Field) -> bool
    ensures { result ≡ spec.is_matched Logs field.now }
{
    match field {
        Field::Id | Field::Date => true,
        Field::Address
        | Field::Account
        | Field::Source
        | Field::Destination
        | Field::Reference
        | Field::Timestamp
        | Field::Reverted
        | Field::Metadata(_)
        | Field::Balance(_) => false,
    }
}

fn matches_volumes(field: &Field) -> bool
    ensures { result ≡ spec.is_matched Volumes field.now }
{
    match field {
        Field::Account | Field::Address | Field::Metadata(_) | Field::Balance(_) => true,
        Field::Source
        | Field::Destination
        | Field::Reference
        | Field::Id
        | Field::Timestamp
        | Field::Date
        | Field::Reverted => false,
    }
}

fn matches_aggregate(field: &Field) -> bool
    ensures { result ≡ spec.is_matched Aggregate field.now }
{
    match field {
        Field::Address | Field::Metadata(_) => true,
        Field::Account
        | Field::Source
        | Field::Destination
        | Field::Reference
        | Field::Id
        | Field::Timestamp
        | Field::Date
        | Field::Reverted
        | Field::Balance(_) => false,
    }
}

/// Whether `$match` compares the field in the list.
fn is_matched(kind: ListKind, field: &Field) -> bool
    ensures { result ≡ spec.is_matched kind field.now }
{
    match kind {
        ListKind::Accounts => matches_accounts(field),
        ListKind::Transactions => matches_transactions(field),
        ListKind::Logs => matches_logs(field),
        ListKind::Volumes => matches_volumes(field),
        ListKind::Aggregate => matches_aggregate(field),
        ListKind::Ledgers => false,
    }
}

fn is_balance(field: &Field) -> bool
    ensures accounts { result ≡ spec.is_ordered Accounts field.now }
    ensures volumes { result ≡ spec.is_ordered Volumes field.now }
{
    match field {
        Field::Balance(_) => true,
        Field::Address
        | Field::Account
        | Field::Source
        | Field::Destination
        | Field::Reference
        | Field::Id
        | Field::Timestamp
        | Field::Date
        | Field::Reverted
        | Field::Metadata(_) => false,
    }
}

fn orders_transactions(field: &Field) -> bool
    ensures { result ≡ spec.is_ordered Transactions field.now }
{
    match field {
        Field::Id | Field::Timestamp => true,
        Field::Address
        | Field::Account
        | Field::Source
        | Field::Destination
        | Field::Reference
        | Field::Date
        | Field::Reverted
        | Field::Metadata(_)
        | Field::Balance(_) => false,
    }
}

fn orders_logs(field: &Field) -> bool
    ensures { result ≡ spec.is_ordered Logs field.now }
{
    match field {
        Field::Id | Field::Date => true,
        Field::Address
        | Field::Account
        | Field::Source
        | Field::Destination
        | Field::Reference
        | Field::Timestamp
        | Field::Reverted
        | Field::Metadata(_)
        | Field::Balance(_) => false,
    }
}

/// Whether `$lt`, `$lte`, `$gt` and `$gte` compare the field in the list.
fn is_ordered(kind: ListKind, field: &Field) -> bool
    ensures { result ≡ spec.is_ordered kind field.now }
{
    match kind {
        ListKind::Accounts | ListKind::Volumes => is_balance(field),
        ListKind::Transactions => orders_transactions(field),
        ListKind::Logs => orders_logs(field),
        ListKind::Ledgers | ListKind::Aggregate => false,
    }
}

/// Whether the list has the comparison.
pub fn compares_field(kind: ListKind, op: Op, field: &Field) -> bool
    ensures { result ≡ spec.compares_field kind op field.now }
{
    match op {
        Op::Equal => is_matched(kind, field),
        Op::Less | Op::LessEqual | Op::Greater | Op::GreaterEqual => is_ordered(kind, field),
    }
}

/// Whether the items of the list have metadata.
pub fn has_metadata(kind: ListKind) -> bool
    ensures { result ≡ spec.has_metadata kind }
{
    match kind {
        ListKind::Accounts | ListKind::Transactions | ListKind::Volumes | ListKind::Aggregate =>
            true,
        ListKind::Ledgers | ListKind::Logs => false,
    }
}
