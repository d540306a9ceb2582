//! Lists by their names.

use lg_types::ListKind;

/// The list of a name, and what stands behind a mark.
pub fn kind_before<'a>(mark: char, text: &'a str) -> Result<(ListKind, &'a str), &'static str> {
    match text.split_once(mark) {
        Some((name, rest)) => Ok((kind_of(name)?, rest)),
        None => Err("no name of a list"),
    }
}

fn kind_of(name: &str) -> Result<ListKind, &'static str> {
    match name {
        "ledgers" => Ok(ListKind::Ledgers),
        "accounts" => Ok(ListKind::Accounts),
        "transactions" => Ok(ListKind::Transactions),
        "logs" => Ok(ListKind::Logs),
        "volumes" => Ok(ListKind::Volumes),
        "balances" => Ok(ListKind::Aggregate),
        _ => Err("another list"),
    }
}
