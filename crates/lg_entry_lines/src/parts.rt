//! What the types of an entry's parts say of them: a value is as its type allows.

ghost use Rattle.std.specs.List.{AllByRecursion};
ghost use Rattle.lg_time.specs.Moment.{IsInMoments};
ghost use Rattle.lg_types.specs.Records.{IsPosting, IsTextPair, IsMeta, IsAccountPair, IsAccountMeta, IsReferenceOf, IsTransaction, IsTarget, IsBody, IsHash, IsMarkOf, IsMark, IsEntry, BodyHasMoments, HasMoments};

use lg_types::{
    AccountMeta, Address, Entry, EntryBody, KeyMark, Meta, Posting, Reference, Target, Text,
    Transaction,
};

fn posting_is(posting: &Posting)
    ensures { IsPosting posting.now }
{
    let _source = posting.source.bytes();
    let _destination = posting.destination.bytes();
    let _amount = posting.amount.value();
    let _asset = posting.asset.bytes();
}

fn postings_are(postings: &[Posting])
    ensures { AllByRecursion IsPosting postings.now }
{
    for posting in postings {
        posting_is(posting);
    }
}

fn text_pair_is(pair: &(Text, Text))
    ensures { IsTextPair pair.now }
{
    let _name = pair.0.bytes();
    let _value = pair.1.bytes();
}

fn text_pairs_are(pairs: &[(Text, Text)])
    ensures { AllByRecursion IsTextPair pairs.now }
{
    for pair in pairs {
        text_pair_is(pair);
    }
}

fn meta_is(meta: &Meta)
    ensures { IsMeta meta.now }
{
    text_pairs_are(meta.entries());
}

fn account_pair_is(pair: &(Address, Meta))
    ensures { IsAccountPair pair.now }
{
    let _name = pair.0.bytes();
    meta_is(&pair.1);
}

fn account_pairs_are(pairs: &[(Address, Meta)])
    ensures { AllByRecursion IsAccountPair pairs.now }
{
    for pair in pairs {
        account_pair_is(pair);
    }
}

fn account_meta_is(accounts: &AccountMeta)
    ensures { IsAccountMeta accounts.now }
{
    account_pairs_are(accounts.entries());
}

fn reference_is(reference: &Option<Reference>)
    ensures { IsReferenceOf reference.now }
{
    match reference {
        Some(reference) => {
            let _bytes = reference.bytes();
        }
        None => {}
    }
}

fn transaction_is(transaction: &Transaction)
    requires { IsInMoments transaction.now.timestamp }
    ensures { IsTransaction transaction.now }
{
    let _id = transaction.id;
    let postings = transaction.postings.as_slice();
    postings_are(postings);
    meta_is(&transaction.metadata);
    reference_is(&transaction.reference);
}

fn target_is(target: &Target)
    ensures { IsTarget target.now }
{
    match target {
        Target::Account(address) => {
            let _bytes = address.bytes();
        }
        Target::Transaction(id) => {
            let _id = *id;
        }
    }
}

fn body_is(body: &EntryBody)
    requires { BodyHasMoments body.now }
    ensures { IsBody body.now }
{
    match body {
        EntryBody::NewTransaction {
            transaction,
            accounts,
        } => {
            transaction_is(transaction);
            account_meta_is(accounts);
        }
        EntryBody::SetMetadata { target, metadata } => {
            target_is(target);
            meta_is(metadata);
        }
        EntryBody::Reverted {
            reverted,
            transaction,
        } => {
            let _id = *reverted;
            transaction_is(transaction);
        }
        EntryBody::DeleteMetadata { target, name } => {
            target_is(target);
            let _bytes = name.bytes();
        }
    }
}

fn hash_is(hash: [u8; 32])
    ensures { IsHash hash }
{
    let _bytes = hash.as_slice();
}

fn mark_is(mark: &KeyMark)
    ensures { IsMark mark.now }
{
    let _key = mark.key.bytes();
    hash_is(mark.input_hash);
}

fn optional_mark_is(mark: &Option<KeyMark>)
    ensures { IsMarkOf mark.now }
{
    match mark {
        Some(mark) => mark_is(mark),
        None => {}
    }
}

/// An entry whose dates are moments is as its types allow: so the laws of lines hold of its line.
pub fn entry_is(entry: &Entry)
    requires { HasMoments entry.now }
    ensures { IsEntry entry.now }
{
    body_is(&entry.body);
    optional_mark_is(&entry.mark);
    hash_is(entry.hash);
    let _id = entry.id;
}
