//! The reader of lists.

use crate::first_pages::filter_of_body;
use crate::queries::{items_query, ledgers_query, logs_query, volumes_query};
use lg_codec::CodecStop;
use lg_routes::{ListReader, Parameter, RequestBody};
use lg_types::{Filter, ListKind, Query};
use std::alloc::Global;

/// Reads the queries of lists.
pub struct Lists;

impl ListReader for Lists {
    fn read_query(
        alloc: Global,
        kind: ListKind,
        parameters: &[Parameter<'_>],
        body: RequestBody,
    ) -> Result<Query, CodecStop> {
        match kind {
            ListKind::Ledgers => ledgers_query(alloc, parameters),
            ListKind::Accounts => items_query(alloc, ListKind::Accounts, parameters, body),
            ListKind::Transactions => items_query(alloc, ListKind::Transactions, parameters, body),
            ListKind::Logs => logs_query(alloc, parameters, body),
            ListKind::Volumes => volumes_query(alloc, parameters, body),
            ListKind::Aggregate => unreachable!(),
        }
    }

    fn read_filter(alloc: Global, kind: ListKind, body: RequestBody) -> Result<Filter, CodecStop> {
        filter_of_body(alloc, kind, body)
    }
}
