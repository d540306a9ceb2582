//! Filters, decided of an item.

ghost use Rattle.std.specs.Prelude.{◌≡◌};
ghost use Rattle.std.specs.List.{list_any};
ghost use Rattle.lg_views.specs.Filters.{passes as passes_by, compares as compares_by};
ghost use Rattle.lg_select.specs.Selecting.{passes_each};

use lg_types::{Field, Filter, Op, Value};

/// What a filter asks of an item.
pub trait Filtered {
    ghost use Rattle.std.specs.Prelude.{◌≡◌, ℕ, Bool, List};
    ghost use Rattle.lg_types.specs.declared.filters.Op.{Op};
    ghost use Rattle.lg_types.specs.declared.filters.Field.{Field};
    ghost use Rattle.lg_types.specs.declared.filters.Value.{Value};

    /// Whether a comparison holds of the item.
    ghost compares: { Self → Op → Field → Value → Bool };

    /// Whether the item's metadata have a name.
    ghost names: { Self → List ℕ → Bool };

    fn holds(&self, op: Op, field: &Field, value: &Value) -> bool
        ensures { result ≡ compares self.now op field.now value.now };

    fn has_name(&self, name: &[u8]) -> bool
        ensures { result ≡ names self.now name.now };
}

/// Whether the item passes the filter.
#[cycle(filtering)]
pub fn passes<T: Filtered>(item: &T, filter: &Filter) -> bool
    ensures { result ≡ passes_by (T.compares item.now) (T.names item.now) filter.now }
{
    match filter {
        Filter::All => true,
        Filter::Compare { op, field, value } => item.holds(*op, field, value),
        Filter::Has(name) => item.has_name(name.bytes()),
        Filter::Both(filters) => passes_all(item, filters.as_slice()),
        Filter::Either(filters) => passes_any(item, filters.as_slice()),
        Filter::Not(filter) => !passes(item, filter.get()),
    }
}

#[cycle(filtering)]
fn passes_all<T: Filtered>(item: &T, filters: &[Filter]) -> bool
    ensures { result ≡ passes_each (T.compares item.now) (T.names item.now) filters.now }
{
    for filter in filters {
        if !passes(item, filter) {
            return false;
        }
    }
    true
}

#[cycle(filtering)]
fn passes_any<T: Filtered>(item: &T, filters: &[Filter]) -> bool
    ensures { result ≡ list_any (passes_by (T.compares item.now) (T.names item.now)) filters.now }
{
    for filter in filters {
        if passes(item, filter) {
            return true;
        }
    }
    false
}

/// Whether two numbers stand to each other as the operator says.
pub fn compares(op: Op, left: i128, right: i128) -> bool
    ensures { result ≡ compares_by op left right }
{
    match op {
        Op::Equal => left == right,
        Op::Less => left < right,
        Op::LessEqual => left <= right,
        Op::Greater => left > right,
        Op::GreaterEqual => left >= right,
    }
}
