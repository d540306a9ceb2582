//! Lines of a script.

use lg_types::Call;

/// A line of a script.
#[derive(Drop)]
pub struct ScriptLine {
    /// The number of the line, counted from 1.
    pub line: u64,
    /// Below 64.
    pub caller: u32,
    pub phase: u32,
    /// In microseconds since 1970-01-01T00:00:00Z.
    pub moment: i64,
    pub call: Call,
}
