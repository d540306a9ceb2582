//! Texts of tokens, against another program.

use lg_filters::read_filter;
use lg_json::read;
use lg_tokens::token_of;
use lg_types::{Address, After, Asset, Expand, Filter, ListKind, Query, Span, Text};
use std::alloc::Global;
use std::test::Fail;

fn query(page_size: u8, filter: Filter) -> Query {
    Query {
        filter,
        pit: None,
        page_size,
        after: None,
        expand: Expand {
            volumes: false,
            effective: false,
        },
        span: Span {
            from: None,
            to: None,
            by_insertion: false,
            group: 0,
        },
    }
}

/// A query with the filter that a text shows.
fn filtered(alloc: Global, kind: ListKind, page_size: u8, text: &str) -> Result<Query, Fail> {
    let value = read(alloc, text.as_bytes())?;
    let filter = read_filter(alloc, kind, &value).ok();
    Ok(query(page_size, filter.ok_or("no filter")?))
}

fn first_ledgers(alloc: Global) -> Result<Text, Fail> {
    let query = query(1, Filter::All);
    Ok(token_of(alloc, ListKind::Ledgers, &query, &After::Place(7))?)
}

const LEDGERS: &str = "eyJraW5kIjoibGVkZ2VycyIsInBhZ2VTaXplIjoxLCJhZnRlciI6N30";

#[test]
fn token_of_ledgers(rt: HostRuntime) -> Result<(), Fail> {
    let token = first_ledgers(rt.alloc())?;
    assert!(rt; token.bytes() == LEDGERS.as_bytes());
    Ok(())
}

fn accounts_at_a_date(alloc: Global) -> Result<Text, Fail> {
    let mut query = query(15, Filter::All);
    query.pit = Some(0);
    query.expand = Expand {
        volumes: true,
        effective: true,
    };
    let after = After::Address(Address::read(alloc, b"users:1")?);
    Ok(token_of(alloc, ListKind::Accounts, &query, &after)?)
}

const ACCOUNTS: &str =
    "eyJraW5kIjoiYWNjb3VudHMiLCJwYWdlU2l6ZSI6MTUsInBpdCI6IjE5NzAtMDEtMDFUMDA6MDA6MDBaIiwiZXhwYW5kIjpbInZvbHVtZXMiLCJlZmZlY3RpdmVWb2x1bWVzIl0sImFmdGVyIjoidXNlcnM6MSJ9";

#[test]
fn token_of_accounts(rt: HostRuntime) -> Result<(), Fail> {
    let token = accounts_at_a_date(rt.alloc())?;
    assert!(rt; token.bytes() == ACCOUNTS.as_bytes());
    Ok(())
}

fn volumes_between_dates(alloc: Global) -> Result<Text, Fail> {
    let mut query = query(100, Filter::All);
    query.span = Span {
        from: Some(0),
        to: Some(500_000),
        by_insertion: true,
        group: 2,
    };
    let after = After::Pair {
        account: Address::read(alloc, b"users:1")?,
        asset: Asset::read(alloc, b"USD/2")?,
    };
    Ok(token_of(alloc, ListKind::Volumes, &query, &after)?)
}

const VOLUMES: &str =
    "eyJraW5kIjoidm9sdW1lcyIsInBhZ2VTaXplIjoxMDAsInN0YXJ0VGltZSI6IjE5NzAtMDEtMDFUMDA6MDA6MDBaIiwiZW5kVGltZSI6IjE5NzAtMDEtMDFUMDA6MDA6MDAuNVoiLCJpbnNlcnRpb25EYXRlIjp0cnVlLCJncm91cEJ5IjoyLCJhZnRlciI6InVzZXJzOjEgVVNELzIifQ";

#[test]
fn token_of_volumes(rt: HostRuntime) -> Result<(), Fail> {
    let token = volumes_between_dates(rt.alloc())?;
    assert!(rt; token.bytes() == VOLUMES.as_bytes());
    Ok(())
}

/// A name with a quote, a value with the end of a line, the least balance that there is.
const FILTER_OF_ACCOUNTS: &str =
    r#"{"$and":[{"$match":{"metadata[k\"]":"v\n"}},{"$not":{"$gte":{"balance[USD/2]":-170141183460469231731687303715884105728}}},{"$or":[]},{"$exists":{"metadata":"n"}},{}]}"#;

fn filtered_accounts(alloc: Global) -> Result<Text, Fail> {
    let query = filtered(alloc, ListKind::Accounts, 2, FILTER_OF_ACCOUNTS)?;
    let after = After::Address(Address::read(alloc, b"a")?);
    Ok(token_of(alloc, ListKind::Accounts, &query, &after)?)
}

const FILTERED_ACCOUNTS: &str =
    "eyJraW5kIjoiYWNjb3VudHMiLCJwYWdlU2l6ZSI6MiwiZmlsdGVyIjp7IiRhbmQiOlt7IiRtYXRjaCI6eyJtZXRhZGF0YVtrXCJdIjoidlxuIn19LHsiJG5vdCI6eyIkZ3RlIjp7ImJhbGFuY2VbVVNELzJdIjotMTcwMTQxMTgzNDYwNDY5MjMxNzMxNjg3MzAzNzE1ODg0MTA1NzI4fX19LHsiJG9yIjpbXX0seyIkZXhpc3RzIjp7Im1ldGFkYXRhIjoibiJ9fSx7fV19LCJhZnRlciI6ImEifQ";

#[test]
fn token_with_a_filter_of_accounts(rt: HostRuntime) -> Result<(), Fail> {
    let token = filtered_accounts(rt.alloc())?;
    assert!(rt; token.bytes() == FILTERED_ACCOUNTS.as_bytes());
    Ok(())
}

const FILTER_OF_TRANSACTIONS: &str =
    r#"{"$or":[{"$lt":{"timestamp":"1970-01-01T00:00:00.5Z"}},{"$match":{"reverted":true}},{"$lte":{"id":3}},{"$match":{"source":"a:"}}]}"#;

fn filtered_transactions(alloc: Global) -> Result<Text, Fail> {
    let mut query = filtered(alloc, ListKind::Transactions, 15, FILTER_OF_TRANSACTIONS)?;
    query.expand = Expand {
        volumes: false,
        effective: true,
    };
    Ok(token_of(alloc, ListKind::Transactions, &query, &After::Place(3))?)
}

const FILTERED_TRANSACTIONS: &str =
    "eyJraW5kIjoidHJhbnNhY3Rpb25zIiwicGFnZVNpemUiOjE1LCJleHBhbmQiOlsiZWZmZWN0aXZlVm9sdW1lcyJdLCJmaWx0ZXIiOnsiJG9yIjpbeyIkbHQiOnsidGltZXN0YW1wIjoiMTk3MC0wMS0wMVQwMDowMDowMC41WiJ9fSx7IiRtYXRjaCI6eyJyZXZlcnRlZCI6dHJ1ZX19LHsiJGx0ZSI6eyJpZCI6M319LHsiJG1hdGNoIjp7InNvdXJjZSI6ImE6In19XX0sImFmdGVyIjozfQ";

#[test]
fn token_with_a_filter_of_transactions(rt: HostRuntime) -> Result<(), Fail> {
    let token = filtered_transactions(rt.alloc())?;
    assert!(rt; token.bytes() == FILTERED_TRANSACTIONS.as_bytes());
    Ok(())
}

const FILTER_OF_LOGS: &str = r#"{"$gt":{"date":"1970-01-01T00:00:00Z"}}"#;

fn filtered_logs(alloc: Global) -> Result<Text, Fail> {
    let query = filtered(alloc, ListKind::Logs, 15, FILTER_OF_LOGS)?;
    Ok(token_of(alloc, ListKind::Logs, &query, &After::Place(u64::MAX))?)
}

const FILTERED_LOGS: &str =
    "eyJraW5kIjoibG9ncyIsInBhZ2VTaXplIjoxNSwiZmlsdGVyIjp7IiRndCI6eyJkYXRlIjoiMTk3MC0wMS0wMVQwMDowMDowMFoifX0sImFmdGVyIjoxODQ0Njc0NDA3MzcwOTU1MTYxNX0";

#[test]
fn token_with_a_filter_of_logs(rt: HostRuntime) -> Result<(), Fail> {
    let token = filtered_logs(rt.alloc())?;
    assert!(rt; token.bytes() == FILTERED_LOGS.as_bytes());
    Ok(())
}
