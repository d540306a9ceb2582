//! The postings of a trial, in the order in which they are tried.

ghost use Rattle.std.specs.Prelude.{◌≡◌, ◌<◌, length, slice_get, Some};
ghost use Rattle.lg_types.specs.Trial.{exchanged as exchanged_posting};
ghost use Rattle.lg_sheet.specs.Lines.{posting_of, ordered};

use lg_types::{Address, Amount, Asset, Posting};

/// How postings are tried.
#[derive(Clone, Copy)]
pub enum Order {
    /// As they stand.
    Given,
    /// From the last to the first, each with its source and its destination exchanged.
    Reverting,
}

/// A posting that is tried.
#[derive(Clone, Copy)]
pub struct Line<'a> {
    pub source: &'a Address,
    pub destination: &'a Address,
    pub asset: &'a Asset,
    pub amount: Amount,
}

/// The posting at the place of the order, counted from 0.
pub fn line_at(postings: &[Posting], order: Order, place: usize) -> Line<'_>
    requires { place < length postings.now }
    ensures { slice_get (ordered order postings.now) place ≡ Some (posting_of result) }
{
    match order {
        Order::Given => given(&postings[place]),
        Order::Reverting => exchanged(&postings[postings.len() - 1 - place]),
    }
}

fn given(posting: &Posting) -> Line<'_>
    ensures { posting_of result ≡ posting.now }
{
    Line {
        source: &posting.source,
        destination: &posting.destination,
        asset: &posting.asset,
        amount: posting.amount,
    }
}

fn exchanged(posting: &Posting) -> Line<'_>
    ensures { posting_of result ≡ exchanged_posting posting.now }
{
    Line {
        source: &posting.destination,
        destination: &posting.source,
        asset: &posting.asset,
        amount: posting.amount,
    }
}
