//! A law about messages.

ghost use Rattle.lg_http.specs.Laws.{OneMessage};

/// Bytes begin with one message at most.
pub fn one_message()
    ensures { OneMessage }
{}
