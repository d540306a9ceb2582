//! Filters of each list, and the faults of values that show none.

use crate::kinds::kind_before;
use crate::stops::{joined, told_stop};
use crate::tables::{Reader, check};
use lg_filters::{filter_of_json, read_filter};
use lg_json::{Json, read};
use lg_request_tests::text_of;
use lg_types::{Field, Filter, ListKind, Op, Value};
use std::alloc::Global;
use std::test::Fail;

fn operator(op: Op) -> &'static [u8] {
    match op {
        Op::Equal => b" = ",
        Op::Less => b" < ",
        Op::LessEqual => b" <= ",
        Op::Greater => b" > ",
        Op::GreaterEqual => b" >= ",
    }
}

fn told_field(alloc: Global, field: &Field) -> Result<String, Fail> {
    match field {
        Field::Address => text_of(alloc, b"address"),
        Field::Account => text_of(alloc, b"account"),
        Field::Source => text_of(alloc, b"source"),
        Field::Destination => text_of(alloc, b"destination"),
        Field::Reference => text_of(alloc, b"reference"),
        Field::Id => text_of(alloc, b"id"),
        Field::Timestamp => text_of(alloc, b"timestamp"),
        Field::Date => text_of(alloc, b"date"),
        Field::Reverted => text_of(alloc, b"reverted"),
        Field::Metadata(name) => joined(alloc, b"metadata[", name.bytes(), b"]"),
        Field::Balance(asset) => joined(alloc, b"balance[", asset.bytes(), b"]"),
    }
}

/// A text in quotes, a number, a moment in microseconds since 1970-01-01T00:00:00Z, a truth.
fn told_value(alloc: Global, value: &Value) -> Result<String, Fail> {
    match value {
        Value::Text(text) => joined(alloc, b"\"", text.bytes(), b"\""),
        Value::Whole(number) => Ok(format!(in alloc; "{number}")?),
        Value::Moment(moment) => Ok(format!(in alloc; "moment {moment}")?),
        Value::Truth(truth) => Ok(format!(in alloc; "{truth}")?),
    }
}

fn told_comparison(alloc: Global, op: Op, field: &Field, value: &Value) -> Result<String, Fail> {
    let field = told_field(alloc, field)?;
    let value = told_value(alloc, value)?;
    joined(alloc, field.as_bytes(), operator(op), value.as_bytes())
}

/// A filter over no other filters.
fn told_leaf(alloc: Global, filter: &Filter) -> Result<String, Fail> {
    match filter {
        Filter::All => text_of(alloc, b"all"),
        Filter::Compare { op, field, value } => told_comparison(alloc, *op, field, value),
        Filter::Has(name) => joined(alloc, b"has ", name.bytes(), b""),
        _ => text_of(alloc, b"several"),
    }
}

fn told_filter(alloc: Global, filter: &Filter) -> Result<String, Fail> {
    match filter {
        Filter::Both(filters) if filters.is_empty() => text_of(alloc, b"all of none"),
        Filter::Either(filters) => match filters.as_slice() {
            [Filter::All, Filter::Not(inner)] => {
                let inner = told_leaf(alloc, inner.get())?;
                joined(alloc, b"all, or not ", inner.as_bytes(), b"")
            }
            _ => told_leaf(alloc, filter),
        },
        _ => told_leaf(alloc, filter),
    }
}

fn told_reading(alloc: Global, kind: ListKind, value: &Json) -> Result<String, Fail> {
    match read_filter(alloc, kind, value) {
        Ok(filter) => told_filter(alloc, &filter),
        Err(stop) => told_stop(alloc, &stop),
    }
}

/// Reads filters behind the name of a list.
struct Filters;

impl Reader for Filters {
    fn told(&self, alloc: Global, text: &str) -> Result<String, Fail> {
        let (kind, text) = kind_before(' ', text)?;
        let value = read(alloc, text.as_bytes())?;
        told_reading(alloc, kind, &value)
    }
}

/// Values, and the filter that each shows.
const GOOD: &str = r#"
accounts {"$match":{"address":"users:"}} => address = "users:"
accounts {"$match":{"metadata[k]":"v"}} => metadata[k] = "v"
accounts {"$lt":{"balance[USD/2]":-5}} => balance[USD/2] < -5
accounts {"$exists":{"metadata":"k"}} => has k
accounts {"$or":[{},{"$not":{"$match":{"address":"a"}}}]} => all, or not address = "a"
transactions {"$lte":{"timestamp":"1970-01-01T00:00:01Z"}} => timestamp <= moment 1000000
transactions {"$match":{"reverted":true}} => reverted = true
transactions {"$match":{"reference":"r"}} => reference = "r"
transactions {"$match":{"account":"a"}} => account = "a"
transactions {"$match":{"source":"a"}} => source = "a"
transactions {"$match":{"destination":"a"}} => destination = "a"
transactions {"$gte":{"id":7}} => id >= 7
transactions {"$match":{"metadata[]":""}} => metadata[] = ""
logs {"$gt":{"date":"1970-01-01T00:00:01Z"}} => date > moment 1000000
logs {"$match":{"id":0}} => id = 0
volumes {"$match":{"account":"a"}} => account = "a"
volumes {"$match":{"address":"a"}} => address = "a"
volumes {"$lt":{"balance[A]":1}} => balance[A] < 1
balances {"$match":{"address":"a"}} => address = "a"
balances {"$exists":{"metadata":"k"}} => has k
ledgers {"$and":[]} => all of none
ledgers {} => all
"#;

#[test]
fn filters_of_each_list(rt: HostRuntime) -> Result<(), Fail> {
    check(&rt, rt.alloc(), &Filters, GOOD)
}

/// Values that show no filter, and the path of what is bad in each.
const BAD: &str = r#"
accounts null => filter body
accounts [] => filter body
accounts {"$match":{"address":"a"},"$not":{}} => filter body
accounts {"$lt":{"address":"a"}} => filter $lt
logs {"$exists":{"metadata":"k"}} => filter $exists
accounts {"$exists":{"metadata":7}} => filter $exists
accounts {"$exists":{"balance":"k"}} => filter $exists
ledgers {"$match":{"id":1}} => filter $match
accounts {"$like":{"address":"a"}} => filter $like
accounts {"$and":{}} => filter $and
accounts {"$not":null} => filter $not
balances {"$lt":{"balance[USD]":1}} => filter $lt
transactions {"$lt":{"reference":"a"}} => filter $lt
transactions {"$match":{"timestamp":"yesterday"}} => filter $match
transactions {"$match":{"timestamp":7}} => filter $match
transactions {"$match":{"id":"7"}} => filter $match
transactions {"$match":{"reverted":"true"}} => filter $match
transactions {"$match":{"address":"a"}} => filter $match
accounts {"$match":{"balance[usd]":1}} => filter $match
accounts {"$match":{"metadata[k":"v"}} => filter $match
accounts {"$match":{}} => filter $match
accounts {"$match":{"address":"a","metadata[k]":"v"}} => filter $match
accounts {"$match":{"address":null}} => filter $match
volumes {"$match":{"id":1}} => filter $match
accounts {"$and":[{},{"$match":{"address":1}},{"$or":1}]} => filter $and[1].$match
accounts {"$and":[{"$or":1},{"$match":{"address":1}}]} => filter $and[0].$or
accounts {"$not":{"$and":[{},7]}} => filter $not.$and[1]
"#;

#[test]
fn faults_of_filters(rt: HostRuntime) -> Result<(), Fail> {
    check(&rt, rt.alloc(), &Filters, BAD)
}

/// Whether all items of a log are wanted where there is no body.
fn shows_all(alloc: Global) -> bool {
    match filter_of_json(alloc, ListKind::Logs, &Json::Null) {
        Ok(filter) => matches!(filter, Filter::All),
        Err(_) => false,
    }
}

#[test]
fn no_body_shows_all_items(rt: HostRuntime) {
    assert!(rt; shows_all(rt.alloc()));
}
