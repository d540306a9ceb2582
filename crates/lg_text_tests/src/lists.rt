//! Queries of requests of lists.

use crate::kinds::kind_before;
use crate::stops::told_stop;
use crate::tables::{Reader, check};
use lg_codec::CodecStop;
use lg_json::read;
use lg_pages::{group_by, items_query, ledgers_query, logs_query, page_size, volumes_query};
use lg_request_tests::text_of;
use lg_routes::{Parameter, RequestBody, read_parameters};
use lg_types::{After, Filter, ListKind, Query};
use std::alloc::Global;
use std::test::Fail;

fn told_date(alloc: Global, date: Option<i64>) -> Result<String, Fail> {
    match date {
        Some(date) => Ok(format!(in alloc; "{date}")?),
        None => text_of(alloc, b"-"),
    }
}

fn told_place(alloc: Global, place: &Option<After>) -> Result<String, Fail> {
    match place {
        None => text_of(alloc, b"-"),
        Some(After::Place(place)) => Ok(format!(in alloc; "{place}")?),
        Some(After::Address(address)) => text_of(alloc, address.bytes()),
        Some(After::Pair { account, asset }) => {
            let pair = [account.bytes(), b" ", asset.bytes()].concat(alloc)?;
            text_of(alloc, pair.as_slice())
        }
    }
}

fn filter_word(filter: &Filter) -> &'static str {
    match filter {
        Filter::All => "all",
        Filter::Has(_) => "has",
        _ => "another filter",
    }
}

/// Page size, date, place, which volumes are shown, the span and the filter of a query.
fn told_query(alloc: Global, query: &Query) -> Result<String, Fail> {
    let pit = told_date(alloc, query.pit)?;
    let place = told_place(alloc, &query.after)?;
    let from = told_date(alloc, query.span.from)?;
    let to = told_date(alloc, query.span.to)?;
    let filter = filter_word(&query.filter);
    let size = query.page_size;
    let volumes = query.expand.volumes;
    let effective = query.expand.effective;
    let by_insertion = query.span.by_insertion;
    let group = query.span.group;
    Ok(format!(in alloc;
        "{size} {pit} {place} {volumes} {effective} {from} {to} {by_insertion} {group} {filter}"
    )?)
}

/// A query, or why there is none, in short.
pub fn told_answer(alloc: Global, answer: &Result<Query, CodecStop>) -> Result<String, Fail> {
    match answer {
        Ok(query) => told_query(alloc, query),
        Err(stop) => told_stop(alloc, stop),
    }
}

/// The query behind a question mark.
fn query_of(text: &str) -> &[u8] {
    match text.split_once('?') {
        Some((_, query)) => query.as_bytes(),
        None => b"",
    }
}

/// Reads queries behind a question mark.
struct PageSizes;

impl Reader for PageSizes {
    fn told(&self, alloc: Global, text: &str) -> Result<String, Fail> {
        let parameters = read_parameters(alloc, query_of(text))?;
        match page_size(alloc, parameters.as_slice()) {
            Ok(size) => Ok(format!(in alloc; "{size}")?),
            Err(stop) => told_stop(alloc, &stop),
        }
    }
}

/// Queries, and what page size each asks for.
const PAGE_SIZES: &str = r#"
? => 15
?pageSize=1 => 1
?pageSize=100 => 100
?pageSize=101 => 100
?pageSize=10000000000000000000000000000000000000000000000000000000000000001 => 100
?pageSize=18446744073709551617 => 100
?pageSize=0 => query pageSize
?pageSize => query pageSize
?pageSize= => query pageSize
?pageSize=015 => query pageSize
?pageSize=00 => query pageSize
?pageSize=%2B5 => query pageSize
?pageSize=5%20 => query pageSize
?pageSize=-1 => query pageSize
?pageSize=1.0 => query pageSize
?pageSize=1e1 => query pageSize
?pageSize=%31%35 => 15
?pageSize=7&pageSize=0 => 7
?pageSize=0&pageSize=7 => query pageSize
?pagesize=7 => 15
?%70ageSize=7 => 7
"#;

#[test]
fn page_sizes(rt: HostRuntime) -> Result<(), Fail> {
    check(&rt, rt.alloc(), &PageSizes, PAGE_SIZES)
}

/// Reads queries behind a question mark.
struct Groups;

impl Reader for Groups {
    fn told(&self, alloc: Global, text: &str) -> Result<String, Fail> {
        let parameters = read_parameters(alloc, query_of(text))?;
        match group_by(alloc, parameters.as_slice()) {
            Ok(group) => Ok(format!(in alloc; "{group}")?),
            Err(stop) => told_stop(alloc, &stop),
        }
    }
}

/// Queries, and to how many segments each cuts addresses.
const GROUPS: &str = r#"
? => 0
?groupBy=0 => 0
?groupBy=1 => 1
?groupBy=4294967295 => 4294967295
?groupBy=4294967296 => query groupBy
?groupBy=18446744073709551617 => query groupBy
?groupBy=10000000000000000000000000000000000000000000000000000000000000001 => query groupBy
?groupBy=00 => query groupBy
?groupBy=01 => query groupBy
?groupBy= => query groupBy
?groupBy=2&groupBy=x => 2
?groupBy=x&groupBy=2 => query groupBy
"#;

#[test]
fn segments_of_addresses(rt: HostRuntime) -> Result<(), Fail> {
    check(&rt, rt.alloc(), &Groups, GROUPS)
}

/// The body that a text is.
fn body_of(alloc: Global, text: &str) -> RequestBody {
    match read(alloc, text.as_bytes()) {
        Ok(value) => RequestBody::Value(value),
        Err(fault) => RequestBody::Faulty(fault),
    }
}

fn page_of(
    alloc: Global,
    kind: ListKind,
    parameters: &[Parameter<'_>],
    body: RequestBody,
) -> Result<Query, CodecStop> {
    match kind {
        ListKind::Ledgers => ledgers_query(alloc, parameters),
        ListKind::Logs => logs_query(alloc, parameters, body),
        ListKind::Volumes => volumes_query(alloc, parameters, body),
        _ => items_query(alloc, kind, parameters, body),
    }
}

fn told_page(
    alloc: Global,
    kind: ListKind,
    query: &str,
    body: RequestBody,
) -> Result<String, Fail> {
    let parameters = read_parameters(alloc, query.as_bytes())?;
    let page = page_of(alloc, kind, parameters.as_slice(), body);
    told_answer(alloc, &page)
}

/// Reads the name of a list, a query behind a question mark and, behind a space, a body.
struct Pages;

impl Reader for Pages {
    fn told(&self, alloc: Global, text: &str) -> Result<String, Fail> {
        let (kind, asked) = kind_before('?', text)?;
        match asked.split_once(' ') {
            Some((query, body)) => told_page(alloc, kind, query, body_of(alloc, body)),
            None => told_page(alloc, kind, asked, RequestBody::None),
        }
    }
}

/// Lists, queries and bodies, and what page each asks for.
const PAGES: &str = r#"
ledgers? => 15 - - false false - - false 0 all
ledgers?pageSize=2&pit=x&expand=x&groupBy=x => 2 - - false false - - false 0 all
ledgers?sort=asc => query sort
ledgers?cursor=eyJraW5kIjoibGVkZ2VycyIsInBhZ2VTaXplIjoxMDAsImFmdGVyIjozfQ&pageSize=0 => 100 - 3 false false - - false 0 all
ledgers?cursor=eyJraW5kIjoiYWNjb3VudHMiLCJwYWdlU2l6ZSI6MiwicGl0IjoiMTk3MC0wMS0wMVQwMDowMDowMVoiLCJleHBhbmQiOlsidm9sdW1lcyJdLCJmaWx0ZXIiOnsiJGV4aXN0cyI6eyJtZXRhZGF0YSI6ImEifX0sImFmdGVyIjoidXNlcnM6MSJ9 => cursor
accounts? => 15 - - false false - - false 0 all
accounts? null => 15 - - false false - - false 0 all
accounts? {} => 15 - - false false - - false 0 all
accounts?pageSize=2&pit=1970-01-01T00:00:01Z&expand=volumes {} => 2 1000000 - true false - - false 0 all
accounts?expand=effectiveVolumes&expand=volumes => 15 - - true true - - false 0 all
accounts?expand=effectiveVolumes => 15 - - false true - - false 0 all
accounts?expand=volumes&expand=Volumes => query expand
accounts?expand=volumes,effectiveVolumes => query expand
accounts?expand= => query expand
accounts?pit= => query pit
accounts?pit=1970-01-01T00:00:00.000001z&pit=x => 15 1 - false false - - false 0 all
accounts?pit=1970-01-01T01:00:00%2B01:00 => 15 0 - false false - - false 0 all
accounts?pit=1970-01-01T01:00:00+01:00 => query pit
accounts?pit=1970-01-01 => query pit
accounts?pit=x&pageSize=0 => query pageSize
accounts?expand=x&pit=x => query pit
accounts?order=asc&expand=x => query expand
accounts?order= => query order
accounts?reverse=&sort=&order= => query order
accounts?reverse=true&sort=id => query sort
accounts?reverse => query reverse
accounts?Order=asc&startTime=x&endTime=x&groupBy=x&insertionDate=x&hashes=x => 15 - - false false - - false 0 all
accounts?order=asc [] => query order
accounts? [] => filter body
accounts? { => body at byte 1
accounts? {"$exists":{"metadata":"a"}} => 15 - - false false - - false 0 has
accounts? {"$and":[{"$match":{"id":1}}]} => filter $and[0].$match
accounts?cursor= [] => cursor
accounts?cursor=AA&pageSize=3 => cursor
accounts?cursor=eyJraW5kIjoibGVkZ2VycyIsInBhZ2VTaXplIjoxMDAsImFmdGVyIjozfQ => cursor
accounts?pageSize=0&order=asc&cursor=eyJraW5kIjoiYWNjb3VudHMiLCJwYWdlU2l6ZSI6MiwicGl0IjoiMTk3MC0wMS0wMVQwMDowMDowMVoiLCJleHBhbmQiOlsidm9sdW1lcyJdLCJmaWx0ZXIiOnsiJGV4aXN0cyI6eyJtZXRhZGF0YSI6ImEifX0sImFmdGVyIjoidXNlcnM6MSJ9&cursor= [] => 2 1000000 users:1 true false - - false 0 has
logs? => 15 - - false false - - false 0 all
logs?pageSize=3&pit=1970-01-01T00:00:01Z&expand=x => 3 1000000 - false false - - false 0 all
logs?pit=x => query pit
logs?sort=id&pit=1970-01-01T00:00:01Z { => query sort
logs? {"$match":{"id":1}} => 15 - - false false - - false 0 another filter
logs? {"$match":{"address":"a"}} => filter $match
logs?cursor=eyJraW5kIjoibG9ncyIsInBhZ2VTaXplIjo3LCJhZnRlciI6OX0 => 7 - 9 false false - - false 0 all
volumes? => 15 - - false false - - false 0 all
volumes?startTime=1970-01-01T00:00:02Z&endTime=1970-01-01T00:00:01Z&insertionDate=TRUE&groupBy=2&pit=x&expand=x => 15 - - false false 2000000 1000000 true 2 all
volumes?insertionDate=0&startTime=1970-01-01T00:00:02Z => 15 - - false false 2000000 - false 0 all
volumes?startTime=x&pageSize=0 => query pageSize
volumes?endTime=x&startTime=x => query startTime
volumes?insertionDate=yes&endTime=x => query endTime
volumes?groupBy=x&insertionDate= => query insertionDate
volumes?sort=x&groupBy=x => query groupBy
volumes?sort=x [] => query sort
volumes? [] => filter body
volumes? {"$exists":{"metadata":"a"}} => 15 - - false false - - false 0 has
volumes?cursor=eyJraW5kIjoidm9sdW1lcyIsInBhZ2VTaXplIjo3LCJzdGFydFRpbWUiOiIxOTcwLTAxLTAxVDAwOjAwOjAwLjAwMDAwNVoiLCJncm91cEJ5Ijo0Mjk0OTY3Mjk1LCJhZnRlciI6ImEgWCJ9 x => 7 - a X false false 5 - false 4294967295 all
"#;

#[test]
fn pages_of_each_list(rt: HostRuntime) -> Result<(), Fail> {
    check(&rt, rt.alloc(), &Pages, PAGES)
}
