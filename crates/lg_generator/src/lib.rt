//! Made scripts: a shop's sales and its refunds, the same for the same seed, and what a run of one comes to.
#![tactic(auto)]

mod line;
mod made_run;
mod script;
mod summary;

pub use made_run::make_summary;
pub use script::{make_script, write_script};
pub use summary::Summary;
