//! Laws of the definitions of tokens. Each function's contract is a law; there is nothing to run.

ghost use Rattle.lg_tokens.specs.Laws.{FiltersSpelled, FiltersHaveOneText, TokensDecode, DatesReadBack};

/// The text of a filter is a JSON text of a value that shows the filter and is within the limits, where any value
/// within the limits shows it.
pub fn filters_are_spelled()
    ensures { FiltersSpelled }
{}

/// Filters of a list that one value shows have one text.
pub fn filters_have_one_text()
    ensures { FiltersHaveOneText }
{}

/// The token of a query of a page is decoded to its text.
pub fn tokens_decode()
    ensures { TokensDecode }
{}

/// A date's text is a text of the moment between quotes.
pub fn dates_read_back()
    ensures { DatesReadBack }
{}
