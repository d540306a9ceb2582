//! Laws of the accounts that a ledger names. Each function's contract is a law; there is nothing to run.

ghost use Rattle.std.specs.Prelude.{◌≡◌, ℤ, List, Option};
ghost use Rattle.std.specs.List.{filter};
ghost use Rattle.lg_types.specs.declared.records.Entry.{Entry};
ghost use Rattle.lg_types.specs.Known.{accounts};
ghost use Rattle.lg_views.specs.Pairs.{in_byte_order};
ghost use Rattle.lg_views.specs.Reads.{accounts_at, is_account_at};

/// The accounts that are there at a date are, in byte order, those of all named accounts that are there then.
#[tactic(auto, using(crate::proofs::Dated::at_a_date))]
pub fn accounts_at_a_date()
    ensures { (g : List Entry) (pit : Option ℤ) → in_byte_order (accounts_at g pit) ≡ filter (is_account_at g pit) (in_byte_order (accounts g)) }
{}
