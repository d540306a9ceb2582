//! Feeding the messages of refusals, as they stand between the quotes of a JSON string.

ghost use Rattle.std.specs.Prelude.{◌≡◌, ◌<◌, ◌++◌, [], ◌∷◌, codes, decimal};
ghost use Rattle.std.specs.Fmt.{signed_decimal};
ghost use Rattle.std.specs.List.{concat, flat_map};
ghost use Rattle.lg_base.specs.Feeding.{Feeds};
ghost use Rattle.lg_base.specs.Texts.{escaped, hex_digit as hex_digit_of};
ghost use Rattle.lg_replies.specs.MessageTexts.{message_part_text, escaped_part};
ghost use Rattle.lg_types.specs.declared.refusals.Refusal.TheVariants.{LineMember, Member, KeyInput, BulkSize, NoTransaction, NoAccount, Already, Lack, Below, Limit, SumLimit, Used, Import};
ghost use Rattle.lg_views.specs.RefusalTexts.{member_text, hex_byte, hex_text, fault_text, reason_text, cause_text, message_text};

use crate::message_parts::MessagePart;
use itoa::Buffer;
use lg_base::{Feed, Stop, feed_escaped};
use lg_containers::{Canonical, feed_all};
use lg_types::{
    Address, Asset, FaultKind, ImportCause, Key, LedgerName, Reason, Reference, Refusal, Text,
};

impl<'a> Canonical for MessagePart<'a> {
    ghost text = { escaped_part };

    fn feed_to<F: Feed>(&self, to: &mut F) -> Result<(), Stop> {
        match self {
            MessagePart::Plain(bytes) => feed_escaped(bytes, to),
            MessagePart::Address(name) => feed_escaped(name.bytes(), to),
            MessagePart::Asset(name) => feed_escaped(name.bytes(), to),
            MessagePart::LedgerName(name) => feed_escaped(name.bytes(), to),
            MessagePart::Key(name) => feed_escaped(name.bytes(), to),
            MessagePart::Reference(name) => feed_escaped(name.bytes(), to),
            MessagePart::Text(name) => feed_escaped(name.bytes(), to),
            MessagePart::Member(name) => feed_member(name, to),
            MessagePart::Number(number) => feed_decimal(*number, to),
            MessagePart::Balance(balance) => feed_balance(balance, to),
            MessagePart::Hash(hash) => feed_hex(hash, to),
            MessagePart::Fault(fault) => feed_fault(*fault, to),
            MessagePart::Reason(reason) => feed_reason(*reason, to),
            MessagePart::Cause(cause) => feed_cause(cause, to),
        }
    }
}

/// Feeds the name of a member and a colon, and nothing for an empty name.
fn feed_member<F: Feed>(name: &Text, to: &mut F) -> Result<(), Stop>
    ensures { Feeds F.Feed to.old to.new (flat_map escaped (member_text name.now)) result }
{
    let bytes = name.bytes();
    if bytes.is_empty() {
        return feed_escaped(b"", to);
    }
    feed_escaped(bytes, to)?;
    feed_escaped(b": ", to)
}

fn feed_decimal<F: Feed>(number: u128, to: &mut F) -> Result<(), Stop>
    ensures { Feeds F.Feed to.old to.new (flat_map escaped (decimal number)) result }
{
    let mut buffer = Buffer::new();
    feed_escaped(buffer.format(number).as_bytes(), to)
}

fn feed_balance<F: Feed>(balance: &i128, to: &mut F) -> Result<(), Stop>
    ensures { Feeds F.Feed to.old to.new (flat_map escaped (signed_decimal balance.now)) result }
{
    let mut buffer = Buffer::new();
    feed_escaped(buffer.format(*balance).as_bytes(), to)
}

/// Feeds a hash in hexadecimal.
fn feed_hex<F: Feed>(hash: &[u8; 32], to: &mut F) -> Result<(), Stop>
    ensures { Feeds F.Feed to.old to.new (flat_map escaped (hex_text hash.now)) result }
{
    for byte in hash {
        feed_hex_byte(*byte, to)?;
    }
    Ok(())
}

fn feed_hex_byte<F: Feed>(byte: u8, to: &mut F) -> Result<(), Stop>
    ensures { Feeds F.Feed to.old to.new (flat_map escaped (hex_byte byte)) result }
{
    feed_escaped(&[hex_digit(byte / 16), hex_digit(byte % 16)], to)
}

fn hex_digit(value: u8) -> u8
    requires { value < 16 }
    ensures { result ≡ hex_digit_of value }
{
    if value < 10 {
        b'0' + value
    } else {
        b'a' + (value - 10)
    }
}

fn feed_fault<F: Feed>(fault: FaultKind, to: &mut F) -> Result<(), Stop>
    ensures { Feeds F.Feed to.old to.new (flat_map escaped (fault_text fault)) result }
{
    match fault {
        FaultKind::Syntax => feed_escaped(b"syntax", to),
        FaultKind::NotWhole => feed_escaped(b"not whole", to),
        FaultKind::TooWide => feed_escaped(b"too wide", to),
        FaultKind::TooDeep => feed_escaped(b"too deep", to),
        FaultKind::Repeated => feed_escaped(b"repeated", to),
    }
}

fn feed_reason<F: Feed>(reason: Reason, to: &mut F) -> Result<(), Stop>
    ensures { Feeds F.Feed to.old to.new (flat_map escaped (reason_text reason)) result }
{
    match reason {
        Reason::Missing => feed_escaped(b"missing", to),
        Reason::Kind => feed_escaped(b"type", to),
        Reason::Form => feed_escaped(b"form", to),
    }
}

fn feed_cause<F: Feed>(cause: &ImportCause, to: &mut F) -> Result<(), Stop>
    ensures { Feeds F.Feed to.old to.new (flat_map escaped (cause_text cause.now)) result }
{
    match cause {
        ImportCause::Json => feed_escaped(b"json", to),
        ImportCause::Member { path } => feed_bad_member(path, to),
        ImportCause::Form => feed_escaped(b"form", to),
        ImportCause::Id => feed_escaped(b"id", to),
        ImportCause::Date => feed_escaped(b"date", to),
        ImportCause::Hash => feed_escaped(b"hash", to),
        ImportCause::Key => feed_escaped(b"key", to),
        ImportCause::Reference => feed_escaped(b"reference", to),
        ImportCause::Transaction => feed_escaped(b"transaction", to),
        ImportCause::Revert => feed_escaped(b"revert", to),
        ImportCause::Target => feed_escaped(b"target", to),
        ImportCause::Limit => feed_escaped(b"limit", to),
        ImportCause::NotEmpty => feed_escaped(b"log is not empty", to),
    }
}

fn feed_bad_member<F: Feed>(path: &Text, to: &mut F) -> Result<(), Stop>
    ensures { Feeds F.Feed to.old to.new (flat_map escaped (codes "member " ++ path.now)) result }
{
    feed_escaped(b"member ", to)?;
    feed_escaped(path.bytes(), to)
}

/// Feeds the pieces of a message, one after another.
fn feed_parts<F: Feed>(parts: &[MessagePart<'_>], to: &mut F) -> Result<(), Stop>
    ensures { Feeds F.Feed to.old to.new (flat_map escaped (flat_map message_part_text parts.now)) result }
{
    feed_all(parts, to)
}

/// Feeds a front and a piece behind it.
fn feed_part_after<F: Feed>(front: &[u8], part: MessagePart<'_>, to: &mut F) -> Result<(), Stop>
    ensures { Feeds F.Feed to.old to.new (flat_map escaped (concat (front.now ∷ message_part_text part.entry ∷ []))) result }
{
    feed_parts(&[MessagePart::Plain(front), part], to)
}

/// Feeds a piece and an end behind it.
fn feed_part_before<F: Feed>(part: MessagePart<'_>, end: &[u8], to: &mut F) -> Result<(), Stop>
    ensures { Feeds F.Feed to.old to.new (flat_map escaped (concat (message_part_text part.entry ∷ end.now ∷ []))) result }
{
    feed_parts(&[part, MessagePart::Plain(end)], to)
}

/// Feeds what is wrong with a JSON text, and where, behind the name of the text.
fn feed_bad_json<F: Feed>(
    front: &[u8],
    fault: FaultKind,
    place: u64,
    to: &mut F,
) -> Result<(), Stop>
    ensures { Feeds F.Feed to.old to.new (flat_map escaped (concat (front.now ∷ fault_text fault ∷ codes " at byte " ∷ decimal place ∷ []))) result }
{
    feed_parts(
        &[
            MessagePart::Plain(front),
            MessagePart::Fault(fault),
            MessagePart::Plain(b" at byte "),
            MessagePart::Number(place as u128),
        ],
        to,
    )
}

fn feed_line_member<F: Feed>(member: &Text, reason: Reason, to: &mut F) -> Result<(), Stop>
    ensures { Feeds F.Feed to.old to.new (flat_map escaped (message_text (LineMember member.now reason))) result }
{
    feed_parts(
        &[
            MessagePart::Plain(b"line: "),
            MessagePart::Member(member),
            MessagePart::Reason(reason),
        ],
        to,
    )
}

fn feed_body_member<F: Feed>(path: &Text, reason: Reason, to: &mut F) -> Result<(), Stop>
    ensures { Feeds F.Feed to.old to.new (flat_map escaped (message_text (Member path.now reason))) result }
{
    feed_parts(
        &[
            MessagePart::Text(path),
            MessagePart::Plain(b": "),
            MessagePart::Reason(reason),
        ],
        to,
    )
}

fn feed_key_input<'x, F: Feed>(
    key: &'x Key,
    kept: &'x [u8; 32],
    given: &'x [u8; 32],
    to: &mut F,
) -> Result<(), Stop>
    ensures { Feeds F.Feed to.old to.new (flat_map escaped (message_text (KeyInput key.now kept.now given.now))) result }
{
    feed_parts(
        &[
            MessagePart::Plain(b"key "),
            MessagePart::Key(key),
            MessagePart::Plain(b": kept "),
            MessagePart::Hash(kept),
            MessagePart::Plain(b", given "),
            MessagePart::Hash(given),
        ],
        to,
    )
}

fn feed_bulk_size<F: Feed>(elements: u64, to: &mut F) -> Result<(), Stop>
    ensures { Feeds F.Feed to.old to.new (flat_map escaped (message_text (BulkSize elements))) result }
{
    feed_part_before(MessagePart::Number(elements as u128), b" elements", to)
}

/// Feeds the name of a ledger, be it wanting or there already.
fn feed_ledger<F: Feed>(name: &LedgerName, to: &mut F) -> Result<(), Stop>
    ensures { Feeds F.Feed to.old to.new (flat_map escaped (concat (codes "ledger " ∷ name.now ∷ []))) result }
{
    feed_part_after(b"ledger ", MessagePart::LedgerName(name), to)
}

fn feed_transaction<F: Feed>(id: u64, to: &mut F) -> Result<(), Stop>
    ensures { Feeds F.Feed to.old to.new (flat_map escaped (message_text (NoTransaction id))) result }
{
    feed_part_after(b"transaction ", MessagePart::Number(id as u128), to)
}

fn feed_account<F: Feed>(address: &Address, to: &mut F) -> Result<(), Stop>
    ensures { Feeds F.Feed to.old to.new (flat_map escaped (message_text (NoAccount address.now))) result }
{
    feed_part_after(b"account ", MessagePart::Address(address), to)
}

fn feed_sum_limit<F: Feed>(asset: &Asset, to: &mut F) -> Result<(), Stop>
    ensures { Feeds F.Feed to.old to.new (flat_map escaped (message_text (SumLimit asset.now))) result }
{
    feed_part_before(MessagePart::Asset(asset), b" passes the limit", to)
}

fn feed_already<F: Feed>(id: u64, by: u64, to: &mut F) -> Result<(), Stop>
    ensures { Feeds F.Feed to.old to.new (flat_map escaped (message_text (Already id by))) result }
{
    feed_parts(
        &[
            MessagePart::Plain(b"transaction "),
            MessagePart::Number(id as u128),
            MessagePart::Plain(b" is reverted by "),
            MessagePart::Number(by as u128),
        ],
        to,
    )
}

fn feed_lack<'x, F: Feed>(
    posting: u64,
    account: &'x Address,
    asset: &'x Asset,
    balance: &'x i128,
    amount: u128,
    to: &mut F,
) -> Result<(), Stop>
    ensures { Feeds F.Feed to.old to.new (flat_map escaped (message_text (Lack posting account.now asset.now balance.now amount))) result }
{
    feed_parts(
        &[
            MessagePart::Plain(b"posting "),
            MessagePart::Number(posting as u128),
            MessagePart::Plain(b": "),
            MessagePart::Address(account),
            MessagePart::Plain(b" has "),
            MessagePart::Balance(balance),
            MessagePart::Plain(b" "),
            MessagePart::Asset(asset),
            MessagePart::Plain(b", needs "),
            MessagePart::Number(amount),
        ],
        to,
    )
}

fn feed_below<'x, F: Feed>(
    account: &'x Address,
    asset: &'x Asset,
    balance: &'x i128,
    to: &mut F,
) -> Result<(), Stop>
    ensures { Feeds F.Feed to.old to.new (flat_map escaped (message_text (Below account.now asset.now balance.now))) result }
{
    feed_parts(
        &[
            MessagePart::Plain(b"revert: "),
            MessagePart::Address(account),
            MessagePart::Plain(b" would have "),
            MessagePart::Balance(balance),
            MessagePart::Plain(b" "),
            MessagePart::Asset(asset),
        ],
        to,
    )
}

fn feed_limit<F: Feed>(posting: u64, to: &mut F) -> Result<(), Stop>
    ensures { Feeds F.Feed to.old to.new (flat_map escaped (message_text (Limit posting))) result }
{
    feed_parts(
        &[
            MessagePart::Plain(b"posting "),
            MessagePart::Number(posting as u128),
            MessagePart::Plain(b" passes the limit"),
        ],
        to,
    )
}

fn feed_used<F: Feed>(reference: &Reference, id: u64, to: &mut F) -> Result<(), Stop>
    ensures { Feeds F.Feed to.old to.new (flat_map escaped (message_text (Used reference.now id))) result }
{
    feed_parts(
        &[
            MessagePart::Plain(b"reference "),
            MessagePart::Reference(reference),
            MessagePart::Plain(b" is used by transaction "),
            MessagePart::Number(id as u128),
        ],
        to,
    )
}

fn feed_import<F: Feed>(line: u64, cause: &ImportCause, to: &mut F) -> Result<(), Stop>
    ensures { Feeds F.Feed to.old to.new (flat_map escaped (message_text (Import line cause.now))) result }
{
    feed_parts(
        &[
            MessagePart::Plain(b"line "),
            MessagePart::Number(line as u128),
            MessagePart::Plain(b": "),
            MessagePart::Cause(cause),
        ],
        to,
    )
}

/// Feeds the message of a refusal.
pub fn feed_message<F: Feed>(refusal: &Refusal, to: &mut F) -> Result<(), Stop>
    ensures { Feeds F.Feed to.old to.new (flat_map escaped (message_text refusal.now)) result }
{
    match refusal {
        Refusal::NoRoute => feed_escaped(b"no route", to),
        Refusal::Method => feed_escaped(b"method", to),
        Refusal::LineJson { fault, place } => feed_bad_json(b"line: ", *fault, *place, to),
        Refusal::LineMember { member, reason } => feed_line_member(member, *reason, to),
        Refusal::BodyJson { fault, place } => feed_bad_json(b"body: ", *fault, *place, to),
        Refusal::Member { path, reason } => feed_body_member(path, *reason, to),
        Refusal::Parameter { name } => feed_part_after(b"query ", MessagePart::Text(name), to),
        Refusal::Token => feed_escaped(b"cursor", to),
        Refusal::BadFilter { path } => feed_part_after(b"filter ", MessagePart::Text(path), to),
        Refusal::KeyInput { key, kept, given } => feed_key_input(key, kept, given, to),
        Refusal::Script => feed_escaped(b"script", to),
        Refusal::NoPostings => feed_escaped(b"no postings", to),
        Refusal::BulkSize { elements } => feed_bulk_size(*elements, to),
        Refusal::NoLedger { name } => feed_ledger(name, to),
        Refusal::LedgerThere { name } => feed_ledger(name, to),
        Refusal::NoTransaction { id } => feed_transaction(*id, to),
        Refusal::NoAccount { address } => feed_account(address, to),
        Refusal::Already { id, by } => feed_already(*id, *by, to),
        Refusal::Lack {
            posting,
            account,
            asset,
            balance,
            amount,
        } => feed_lack(*posting, account, asset, balance, *amount, to),
        Refusal::Below {
            account,
            asset,
            balance,
        } => feed_below(account, asset, balance, to),
        Refusal::Limit { posting } => feed_limit(*posting, to),
        Refusal::SumLimit { asset } => feed_sum_limit(asset, to),
        Refusal::Used { reference, id } => feed_used(reference, *id, to),
        Refusal::Import { line, cause } => feed_import(*line, cause, to),
        Refusal::NotBuilt => feed_escaped(b"not built", to),
        Refusal::OutOfMemory => feed_escaped(b"out of memory", to),
    }
}
