//! What a call needs of the stripes, and what their shards say of it.
#![tactic(auto)]

mod balances;
mod stripes;
mod trials;
mod weighed;
mod weighing;

pub use balances::LedgerBalances;
pub use lg_keys::Kept;
pub use lg_turns::StripeSet;
pub use lg_types::NoMemory;
pub use stripes::stripes_of;
pub use trials::try_write;
pub use weighed::Weighed;
pub use weighing::weigh;
