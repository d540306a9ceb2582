//! Accounts of a ledger at a date, as the shards of their stripes know them.
#![tactic(auto)]

mod account_at;
mod single;

pub use account_at::AccountAt;
pub use lg_base::NoMemory;
pub use single::account;
