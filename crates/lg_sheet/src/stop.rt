//! Why a trial stops.

ghost use Rattle.std.specs.Prelude.{◌≡◌};
ghost use Rattle.lg_sheet.specs.Trials.{stop_at as stop_there};

use lg_types::{Address, Asset};

/// Why postings are not accepted. Postings are counted from 0 in the order of the trial.
#[derive(Drop)]
pub enum SheetStop {
    /// The source of the posting has the balance, which is below the posting's amount.
    Lack {
        posting: u64,
        balance: i128,
    },
    /// After all postings of a revert the account's balance would be below zero.
    Below {
        account: Address,
        asset: Asset,
        balance: i128,
    },
    /// With the posting an input or an output passes the limit.
    Limit {
        posting: u64,
    },
    NoMemory,
}

/// Why one posting is not accepted.
#[derive(Clone, Copy)]
pub enum LineStop {
    Lack { balance: i128 },
    Limit,
}

/// The stop of the posting at the place.
pub fn stop_at(place: usize, stop: LineStop) -> SheetStop
    ensures { result ≡ stop_there place stop }
{
    match stop {
        LineStop::Lack { balance } => SheetStop::Lack {
            posting: place as u64,
            balance,
        },
        LineStop::Limit => SheetStop::Limit {
            posting: place as u64,
        },
    }
}
