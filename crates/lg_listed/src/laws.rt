//! Laws of what elements append. Each function's contract is a law; there is nothing to run.

ghost use Rattle.lg_listed.specs.Elements.{AppendedFaultless, AppendedFollows};

/// The entry that an element appends may follow its log, and so the entries of the earlier elements with it.
pub fn appended_follows()
    ensures faultless { AppendedFaultless }
    ensures follows { AppendedFollows }
{}
