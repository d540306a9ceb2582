//! Calls that read a list of a ledger, or a sum over one.

ghost use Rattle.lg_codec.specs.Results.{Reads};
ghost use Rattle.lg_types.specs.declared.filters.ListKind.TheVariants as kind;
ghost use Rattle.lg_types.specs.declared.queries.Read.TheVariants as read;
ghost use Rattle.lg_readings.specs.Requests as requests;
ghost use Rattle.lg_routes.specs.Body.{body_seen};
ghost use Rattle.lg_routes.specs.Lists.{QueryOf, HasPages, LedgersCall};
ghost use Rattle.lg_routes.specs.Seen.{parameters_seen};

use crate::body::RequestBody;
use crate::names::ledger_named;
use crate::parameter_values::{moment, refuse_order, truth};
use crate::parameters::Parameter;
use lg_codec::CodecStop;
use lg_types::{Call, Filter, ListKind, Query, Read};
use std::alloc::Global;

/// Reads what requests of lists ask for.
pub trait ListReader {
    /// The page that is asked for, of the parameters and the body of a request.
    fn read_query(
        alloc: Global,
        kind: ListKind,
        parameters: &[Parameter<'_>],
        body: RequestBody,
    ) -> Result<Query, CodecStop>
        requires { HasPages kind }
        ensures { Reads (QueryOf kind (parameters_seen parameters.now) (body_seen body)) result };

    /// The filter of a list, of the body of a request.
    fn read_filter(alloc: Global, kind: ListKind, body: RequestBody) -> Result<Filter, CodecStop>
        ensures { Reads (requests.FilterBody kind (body_seen body)) result };
}

/// The ledgers.
pub fn ledgers_call<L: ListReader>(
    alloc: Global,
    parameters: &[Parameter<'_>],
    body: RequestBody,
) -> Result<Call, CodecStop>
    ensures { Reads (LedgersCall (parameters_seen parameters.now)) result }
{
    let query = L::read_query(alloc, ListKind::Ledgers, parameters, body)?;
    Ok(Call::Ledgers { query })
}

/// The accounts of a ledger.
pub fn accounts_read<L: ListReader>(
    alloc: Global,
    ledger: &[u8],
    parameters: &[Parameter<'_>],
    body: RequestBody,
) -> Result<Call, CodecStop>
    ensures { Reads (requests.ListRead ledger.now (QueryOf kind.Accounts (parameters_seen parameters.now) (body_seen body)) read.Accounts) result }
{
    let ledger = ledger_named(alloc, ledger)?;
    let query = L::read_query(alloc, ListKind::Accounts, parameters, body)?;
    Ok(Call::Read {
        ledger,
        read: Read::Accounts { query },
    })
}

/// The transactions of a ledger.
pub fn transactions_read<L: ListReader>(
    alloc: Global,
    ledger: &[u8],
    parameters: &[Parameter<'_>],
    body: RequestBody,
) -> Result<Call, CodecStop>
    ensures { Reads (requests.ListRead ledger.now (QueryOf kind.Transactions (parameters_seen parameters.now) (body_seen body)) read.Transactions) result }
{
    let ledger = ledger_named(alloc, ledger)?;
    let query = L::read_query(alloc, ListKind::Transactions, parameters, body)?;
    Ok(Call::Read {
        ledger,
        read: Read::Transactions { query },
    })
}

/// The entries of a ledger's log.
pub fn logs_read<L: ListReader>(
    alloc: Global,
    ledger: &[u8],
    parameters: &[Parameter<'_>],
    body: RequestBody,
) -> Result<Call, CodecStop>
    ensures { Reads (requests.ListRead ledger.now (QueryOf kind.Logs (parameters_seen parameters.now) (body_seen body)) read.Logs) result }
{
    let ledger = ledger_named(alloc, ledger)?;
    let query = L::read_query(alloc, ListKind::Logs, parameters, body)?;
    Ok(Call::Read {
        ledger,
        read: Read::Logs { query },
    })
}

/// The volumes of a ledger's accounts.
pub fn volumes_read<L: ListReader>(
    alloc: Global,
    ledger: &[u8],
    parameters: &[Parameter<'_>],
    body: RequestBody,
) -> Result<Call, CodecStop>
    ensures { Reads (requests.ListRead ledger.now (QueryOf kind.Volumes (parameters_seen parameters.now) (body_seen body)) read.Volumes) result }
{
    let ledger = ledger_named(alloc, ledger)?;
    let query = L::read_query(alloc, ListKind::Volumes, parameters, body)?;
    Ok(Call::Read {
        ledger,
        read: Read::Volumes { query },
    })
}

/// The balance of each asset over all accounts that pass a filter.
pub fn aggregate_read<L: ListReader>(
    alloc: Global,
    ledger: &[u8],
    parameters: &[Parameter<'_>],
    body: RequestBody,
) -> Result<Call, CodecStop>
    ensures { Reads (requests.AggregateRead ledger.now (parameters_seen parameters.now) (body_seen body)) result }
{
    let ledger = ledger_named(alloc, ledger)?;
    let pit = moment(alloc, "pit", parameters)?;
    let by_insertion = truth(alloc, "useInsertionDate", parameters)?;
    refuse_order(alloc, parameters)?;
    let filter = L::read_filter(alloc, ListKind::Aggregate, body)?;
    Ok(Call::Read {
        ledger,
        read: Read::Aggregate {
            filter,
            pit,
            by_insertion,
        },
    })
}
