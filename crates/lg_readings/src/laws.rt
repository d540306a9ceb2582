//! Laws of what is read. Each function's contract is a law; there is nothing to run.

ghost use Rattle.lg_readings.specs.ReadingLaws.{ScriptsInOrder, CheckedIsFaultless, ScriptsImportFaultless};

/// The lines of a script have callers below 64 and phases below 1,000,000; their numbers rise, and their phases never fall.
#[tactic(auto, using(crate::proofs::Scripts::scripts_in_order))]
pub fn scripts_in_order()
    ensures { ScriptsInOrder }
{}

/// Entries that the bytes of an import come to are a faultless log.
pub fn checked_is_faultless()
    ensures { CheckedIsFaultless }
{}

/// An import of a script brings entries that are a faultless log.
#[tactic(auto, using(crate::proofs::ScriptCalls::scripts_import_faultless))]
pub fn scripts_import_faultless()
    ensures { ScriptsImportFaultless }
{}
