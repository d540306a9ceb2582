//! Calls that read one thing of a ledger.

ghost use Rattle.lg_codec.specs.Results.{Reads};
ghost use Rattle.lg_readings.specs.Requests as requests;
ghost use Rattle.lg_routes.specs.Seen.{parameters_seen};

use crate::names::{address_named, id_named, ledger_named};
use crate::parameter_values::{moment, refuse_order};
use crate::parameter_words::expand;
use crate::parameters::Parameter;
use lg_codec::CodecStop;
use lg_types::{Call, Read};
use std::alloc::Global;

/// A reading that has no parameters of its own.
pub fn plain_read(
    alloc: Global,
    ledger: &[u8],
    parameters: &[Parameter<'_>],
    read: Read,
) -> Result<Call, CodecStop>
    ensures { Reads (requests.PlainRead ledger.now (parameters_seen parameters.now) read) result }
{
    let ledger = ledger_named(alloc, ledger)?;
    refuse_order(alloc, parameters)?;
    Ok(Call::Read { ledger, read })
}

/// An account.
pub fn account_read(
    alloc: Global,
    ledger: &[u8],
    address: &[u8],
    parameters: &[Parameter<'_>],
) -> Result<Call, CodecStop>
    ensures { Reads (requests.AccountRead ledger.now address.now (parameters_seen parameters.now)) result }
{
    let ledger = ledger_named(alloc, ledger)?;
    let address = address_named(alloc, address)?;
    let pit = moment(alloc, "pit", parameters)?;
    let expand = expand(alloc, parameters)?;
    refuse_order(alloc, parameters)?;
    Ok(Call::Read {
        ledger,
        read: Read::Account {
            address,
            pit,
            expand,
        },
    })
}

/// A transaction.
pub fn transaction_read(
    alloc: Global,
    ledger: &[u8],
    id: &[u8],
    parameters: &[Parameter<'_>],
) -> Result<Call, CodecStop>
    ensures { Reads (requests.TransactionRead ledger.now id.now (parameters_seen parameters.now)) result }
{
    let ledger = ledger_named(alloc, ledger)?;
    let id = id_named(alloc, id)?;
    let pit = moment(alloc, "pit", parameters)?;
    let expand = expand(alloc, parameters)?;
    refuse_order(alloc, parameters)?;
    Ok(Call::Read {
        ledger,
        read: Read::Transaction { id, expand, pit },
    })
}
