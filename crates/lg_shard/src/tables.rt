//! The tables of keys and of references.

ghost use Rattle.std.specs.Prelude.{◌≡◌, ℕ, ◌+◌, ◌≤◌, List, [], ◌∷◌, ◌++◌, length, None};
ghost use Rattle.lg_types.specs.Known.{Marking, Referred};
ghost use Rattle.lg_types.specs.Lists.{Each};
ghost use Rattle.lg_types.specs.Moves.{body_transaction};
ghost use Rattle.lg_containers.specs.NameTable as table;
ghost use Rattle.lg_shard.specs.Names.{key_in, reference_in};
ghost use Rattle.lg_shard.specs.Holdings.{own_markings, own_references};
ghost use Rattle.lg_shard.specs.Ties.{KeysTied, ReferencesTied};

use crate::names::transaction_of;
use lg_containers::{Key, Reference};
use lg_keys::{Kept, KeyTable, ReferenceTable};
use lg_types::{Entry, LedgerName};

/// Takes the key of the entry into the table, where it is of the stripe.
pub fn apply_key(
    keys: &mut KeyTable,
    stripe: u8,
    ledger: &LedgerName,
    entry: &Entry,
    key: Option<Key>,
)
    requires key { key ≡ key_in stripe ledger.now entry.now.mark }
    requires room { length (own_markings stripe ledger.now entry.now) ≤ keys.old.spare }
    requires absent { Each (λ m. table.get keys.old.table m.mark.key ≡ None) (own_markings stripe ledger.now entry.now) }
    ensures { (done ahead : List Marking) → KeysTied keys.old done (own_markings stripe ledger.now entry.now ++ ahead) → KeysTied keys.new (done ++ own_markings stripe ledger.now entry.now) ahead }
{
    if let (Some(key), Some(mark)) = (key, &entry.mark) {
        let kept = Kept {
            entry: entry.id,
            input_hash: mark.input_hash,
        };
        keys.apply(key, kept);
    }
}

/// Takes the reference of the entry's transaction into the table, where it is of the stripe.
pub fn apply_reference(
    references: &mut ReferenceTable,
    stripe: u8,
    ledger: &LedgerName,
    entry: &Entry,
    reference: Option<Reference>,
)
    requires reference { reference ≡ reference_in stripe ledger.now (body_transaction entry.now.body) }
    requires room { length (own_references stripe ledger.now entry.now) ≤ references.old.spare }
    requires absent { Each (λ r. table.get references.old.table r.reference ≡ None) (own_references stripe ledger.now entry.now) }
    ensures { (done ahead : List Referred) → ReferencesTied references.old done (own_references stripe ledger.now entry.now ++ ahead) → ReferencesTied references.new (done ++ own_references stripe ledger.now entry.now) ahead }
{
    if let (Some(reference), Some(transaction)) = (reference, transaction_of(&entry.body)) {
        references.apply(reference, transaction.id);
    }
}
