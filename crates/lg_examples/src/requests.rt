//! Requests: what a method, a target and a body ask for.

ghost use Rattle.lg_examples.specs.RequestRows.{NowhereAsked, EmptyNameAsked, MethodAsked, NoPostingsAsked, ScriptAsked, StatsAsked, TwoOperators, NestedFault};

/// Paths that no route has, and a method that no route of a path has.
#[tactic(auto, using(crate::proofs::RequestRows::nowhere, crate::proofs::RequestRows::empty_name, crate::proofs::RequestRows::wrong_method))]
pub fn unrouted_requests()
    ensures path { NowhereAsked }
    ensures empty { EmptyNameAsked }
    ensures method { MethodAsked }
{}

/// A creation without postings, and one with a script.
#[tactic(auto, using(crate::proofs::RequestRows::no_postings_given, crate::proofs::RequestRows::script_given))]
pub fn refused_creations()
    ensures postings { NoPostingsAsked }
    ensures script { ScriptAsked }
{}

/// A segment of a path is decoded before it is matched.
#[tactic(auto, using(crate::proofs::RequestRows::stats_asked))]
pub fn decoded_path()
    ensures { StatsAsked }
{}

/// The first fault of a filter.
#[tactic(auto, using(crate::proofs::RequestRows::two_operators, crate::proofs::RequestRows::nested_fault))]
pub fn filter_faults()
    ensures top { TwoOperators }
    ensures nested { NestedFault }
{}
