//! The trial of postings over lent balances: funds and limits, each posting after the ones before it.
#![tactic(auto)]

mod lines;
mod revert;
mod sheet;
mod stop;
mod trial;
mod working;

pub use lg_base::NoMemory;
pub use lg_types::Balances;
pub use sheet::Sheet;
pub use stop::SheetStop;
