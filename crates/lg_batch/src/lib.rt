//! Scripts of requests: reading them, running them on one thread, and writing what came of them.
#![tactic(auto)]

mod bodies;
mod content;
mod imports;
mod line_parts;
mod members;
mod output;
mod run;
mod run_end;
mod script;
mod stops;
mod text_lines;

pub use lg_base::NoMemory;
pub use lg_views::ScriptLine;
pub use run::run_script;
pub use run_end::RunEnd;
pub use script::{Script, read_script};
