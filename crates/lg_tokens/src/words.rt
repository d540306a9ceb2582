//! The names that stand in tokens.

ghost use Rattle.std.specs.Prelude.{◌≡◌};
ghost use Rattle.lg_views.specs.Tokens.{kind_name as name_of_kind, op_name as name_of_op};

use lg_types::{ListKind, Op};

/// The name of a kind of list.
pub fn kind_name(kind: ListKind) -> &'static [u8]
    ensures { result.now ≡ name_of_kind kind }
{
    match kind {
        ListKind::Ledgers => b"ledgers",
        ListKind::Accounts => b"accounts",
        ListKind::Transactions => b"transactions",
        ListKind::Logs => b"logs",
        ListKind::Volumes => b"volumes",
        ListKind::Aggregate => b"aggregate",
    }
}

/// The name of an operator.
pub fn op_name(op: Op) -> &'static [u8]
    ensures { result.now ≡ name_of_op op }
{
    match op {
        Op::Equal => b"$match",
        Op::Less => b"$lt",
        Op::LessEqual => b"$lte",
        Op::Greater => b"$gt",
        Op::GreaterEqual => b"$gte",
    }
}
