//! Lists of writes, pages, filters, groups and sums.

ghost use Rattle.lg_examples.specs.ListRows.{AtomicListFails, AtomicListAppendsNothing, ListGoesOn, FirstPage, SecondPage, LastPage, FirstToken, Grouped, Summed, PastLimit, SumPastLimit};

/// An atomic list that fails, and a list that goes on after a failure.
#[tactic(auto, unfolding(crate::specs::Rows::computed))]
pub fn lists_of_writes()
    ensures atomic { AtomicListFails }
    ensures nothing { AtomicListAppendsNothing }
    ensures on { ListGoesOn }
{}

/// Three pages of accounts that pass a filter.
#[tactic(auto, unfolding(crate::specs::Rows::computed))]
pub fn pages()
    ensures first { FirstPage }
    ensures second { SecondPage }
    ensures last { LastPage }
    ensures token { FirstToken }
{}

/// Volumes by the first segment of the account, and the balance of a filter's accounts.
#[tactic(auto, unfolding(crate::specs::Rows::computed))]
pub fn groups_and_sums()
    ensures grouped { Grouped }
    ensures summed { Summed }
{}

/// An input past the limit, and a sum past it.
#[tactic(auto, unfolding(crate::specs::Rows::computed))]
pub fn past_limit()
    ensures posting { PastLimit }
    ensures sum { SumPastLimit }
{}
