//! What came of a made script, and its text.

ghost use Rattle.std.specs.Prelude.{◌≡◌, ◌<◌};
ghost use Rattle.lg_base.specs.Feeding.{Feeds};
ghost use Rattle.lg_base.specs.Volumes.{IsWithinLimit};
ghost use Rattle.lg_generator.specs.Summaries.{counts_text, volumes_line, hash_or_none, head_line, summary_text};
ghost use Rattle.lg_generator.specs.SummaryParts.{part_text};
ghost use Rattle.lg_views.specs.RefusalTexts.{hex_byte, hex_text};
ghost use Rattle.lg_base.specs.Texts.{hex_digit as hex_digit_of};

use itoa::Buffer;
use lg_base::{Feed, Stop, Volumes, feed_number};
use lg_containers::{Canonical, feed_all};

/// What came of a made script: its lines, how many were accepted, the entries of the ledger `default`, what three of its
/// accounts hold of `USD/2`, and the hash of its last entry.
#[derive(Clone, Copy)]
pub struct Summary {
    pub lines: u32,
    pub accepted: u64,
    pub entries: u64,
    pub fees: Volumes,
    pub sales: Volumes,
    pub world: Volumes,
    pub head: Option<[u8; 32]>,
}

/// A piece of the text.
#[derive(Clone, Copy)]
pub enum SummaryPart<'a> {
    Plain(&'a [u8]),
    /// A whole number in decimal.
    Number(u128),
    /// A balance in decimal.
    Balance(i128),
}

impl<'a> Canonical for SummaryPart<'a> {
    ghost text = { part_text };

    fn feed_to<F: Feed>(&self, to: &mut F) -> Result<(), Stop> {
        match self {
            SummaryPart::Plain(bytes) => to.piece(bytes),
            SummaryPart::Number(number) => {
                let mut buffer = Buffer::new();
                to.piece(buffer.format(*number).as_bytes())
            }
            SummaryPart::Balance(balance) => feed_number(*balance, to),
        }
    }
}

/// Feeds the lines that tell the summary.
pub fn feed_summary<F: Feed>(summary: &Summary, to: &mut F) -> Result<(), Stop>
    requires fees { IsWithinLimit summary.now.fees }
    requires sales { IsWithinLimit summary.now.sales }
    requires world { IsWithinLimit summary.now.world }
    ensures { Feeds F.Feed to.old to.new (summary_text summary.now) result }
{
    feed_counts(summary, to)?;
    feed_volumes(b"shop:fees", summary.fees, to)?;
    feed_volumes(b"shop:sales", summary.sales, to)?;
    feed_volumes(b"world", summary.world, to)?;
    feed_head(&summary.head, to)
}

fn feed_counts<F: Feed>(summary: &Summary, to: &mut F) -> Result<(), Stop>
    ensures { Feeds F.Feed to.old to.new (counts_text summary.now) result }
{
    feed_all(
        &[
            SummaryPart::Plain(b"lines "),
            SummaryPart::Number(summary.lines as u128),
            SummaryPart::Plain(b"\naccepted "),
            SummaryPart::Number(summary.accepted as u128),
            SummaryPart::Plain(b"\nentries "),
            SummaryPart::Number(summary.entries as u128),
            SummaryPart::Plain(b"\n"),
        ],
        to,
    )
}

/// Feeds the line of an account.
fn feed_volumes<F: Feed>(account: &[u8], volumes: Volumes, to: &mut F) -> Result<(), Stop>
    requires { IsWithinLimit volumes }
    ensures { Feeds F.Feed to.old to.new (volumes_line account.now volumes) result }
{
    let balance = volumes.balance();
    feed_all(
        &[
            SummaryPart::Plain(account),
            SummaryPart::Plain(b" USD/2 "),
            SummaryPart::Number(volumes.input),
            SummaryPart::Plain(b" "),
            SummaryPart::Number(volumes.output),
            SummaryPart::Plain(b" "),
            SummaryPart::Balance(balance),
            SummaryPart::Plain(b"\n"),
        ],
        to,
    )
}

/// Feeds the line of the hash.
fn feed_head<F: Feed>(head: &Option<[u8; 32]>, to: &mut F) -> Result<(), Stop>
    ensures { Feeds F.Feed to.old to.new (head_line head.now) result }
{
    to.piece(b"head ")?;
    feed_hash(head, to)?;
    to.piece(b"\n")
}

fn feed_hash<F: Feed>(head: &Option<[u8; 32]>, to: &mut F) -> Result<(), Stop>
    ensures { Feeds F.Feed to.old to.new (hash_or_none head.now) result }
{
    match head {
        None => to.piece(b"none"),
        Some(hash) => feed_hex(hash, to),
    }
}

/// Feeds bytes in hexadecimal.
fn feed_hex<F: Feed>(bytes: &[u8; 32], to: &mut F) -> Result<(), Stop>
    ensures { Feeds F.Feed to.old to.new (hex_text bytes.now) result }
{
    for byte in bytes {
        feed_hex_byte(*byte, to)?;
    }
    Ok(())
}

fn feed_hex_byte<F: Feed>(byte: u8, to: &mut F) -> Result<(), Stop>
    ensures { Feeds F.Feed to.old to.new (hex_byte byte) result }
{
    to.piece(&[hex_digit(byte / 16), hex_digit(byte % 16)])
}

fn hex_digit(value: u8) -> u8
    requires { value < 16 }
    ensures { result ≡ hex_digit_of value }
{
    if value < 10 {
        b'0' + value
    } else {
        b'a' + (value - 10)
    }
}
