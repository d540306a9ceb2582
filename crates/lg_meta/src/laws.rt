//! What the definitions come to.

ghost use Rattle.std.specs.Prelude.{◌≡◌, ℤ, List, Option};
ghost use Rattle.lg_types.specs.declared.records.Entry.{Entry};
ghost use Rattle.lg_types.specs.declared.records.Target.{Target};
ghost use Rattle.lg_types.specs.Changes.{metadata_at};
ghost use Rattle.lg_meta.specs.MetaFold.{meta_at, changes_about};

/// The metadata of an account or a transaction in a log, at any date, is what the changes that the log makes of it come
/// to. So a history of just these changes shows it.
pub fn metadata_by_changes()
    ensures { (g : List Entry) (target : Target) (date : Option ℤ) → metadata_at g target date ≡ meta_at date (changes_about target g) }
{}
