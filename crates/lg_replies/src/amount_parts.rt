//! The pieces of the text of volumes.

use lg_base::Volumes;
use lg_types::Part;

/// A piece of the text of volumes or of a balance.
#[derive(Clone, Copy)]
pub enum AmountPart<'a> {
    Base(Part<'a>),
    /// A whole number in decimal.
    Number(u128),
    /// A balance in decimal.
    Balance(&'a i128),
    /// The balance of volumes in decimal: the input less the output.
    BalanceOf(&'a Volumes),
}
