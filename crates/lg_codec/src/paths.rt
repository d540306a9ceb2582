//! The texts of paths, and refusals of what stands there.

ghost use Rattle.std.specs.Prelude.{◌≡◌, ◌++◌, codes, IfOk};
ghost use Rattle.std.specs.List.{flat_map};
ghost use Rattle.lg_types.specs.declared.refusals.Refusal.TheVariants.{Member as MemberRefusal};
ghost use Rattle.lg_readings.specs.Paths.{path_text as text_of_path, below};
ghost use Rattle.lg_codec.specs.PathParts.{base_path, holder_path, path_of};
ghost use Rattle.lg_codec.specs.PathTexts.{prefix_text};
ghost use Rattle.lg_codec.specs.Stops.{StopsWith};

use crate::path_parts::{Base, Holder, Path};
use crate::stop::CodecStop;
use itoa::Buffer;
use lg_base::NoMemory;
use lg_types::{Reason, Refusal, Text};
use std::alloc::Global;
use std::str::from_utf8;

fn as_str<'a>(text: &'a Text) -> &'a str
    ensures { result.now ≡ text.now }
{
    match from_utf8(text.bytes()) {
        Ok(text) => text,
        Err(_) => unreachable!(),
    }
}

/// The text that the pieces make, one after another.
fn joined<'a>(alloc: Global, pieces: &[&'a str]) -> Result<Text, NoMemory>
    ensures { IfOk result (λ text. text ≡ flat_map (λ piece. piece.now) pieces.now) }
{
    let text = pieces.concat(alloc)?;
    Ok(Text::from_vec(text.into_bytes()))
}

fn base_text(alloc: Global, base: Base) -> Result<Text, NoMemory>
    ensures { IfOk result (λ text. text ≡ text_of_path (base_path base)) }
{
    match base {
        Base::Body => joined(alloc, &["body"]),
        Base::Data => joined(alloc, &["data"]),
        Base::Transaction => joined(alloc, &["data.transaction"]),
    }
}

/// What stands before the name of a member.
fn prefix<'a>(base: Base) -> &'a str
    ensures { result.now ≡ prefix_text base }
{
    match base {
        Base::Body => "",
        Base::Data => "data.",
        Base::Transaction => "data.transaction.",
    }
}

fn holder_text<'a>(alloc: Global, holder: Holder<'a>) -> Result<Text, NoMemory>
    ensures { IfOk result (λ text. text ≡ text_of_path (holder_path holder.entry)) }
{
    match holder {
        Holder::Whole(base) => base_text(alloc, base),
        Holder::Member(base, name) => joined(alloc, &[prefix(base), name]),
        Holder::Account(base, address) => joined(
            alloc,
            &[prefix(base), "accountMetadata.", as_str(address)],
        ),
    }
}

/// The path of a member of any name.
fn named_text<'a>(alloc: Global, holder: Holder<'a>, name: &'a Text) -> Result<Text, NoMemory>
    ensures { IfOk result (λ text. text ≡ text_of_path (below (holder_path holder.entry) name.now)) }
{
    match holder {
        Holder::Whole(base) => joined(alloc, &[prefix(base), as_str(name)]),
        Holder::Member(base, member) => {
            joined(alloc, &[prefix(base), member, ".", as_str(name)])
        }
        Holder::Account(base, address) => joined(
            alloc,
            &[
                prefix(base),
                "accountMetadata.",
                as_str(address),
                ".",
                as_str(name),
            ],
        ),
    }
}

fn posting_text(alloc: Global, base: Base, place: u64) -> Result<Text, NoMemory>
    ensures { IfOk result (λ text. text ≡ text_of_path (path_of (Path.Posting base place))) }
{
    let mut buffer = Buffer::new();
    let number = buffer.format(place);
    joined(alloc, &[prefix(base), "postings[", number, "]"])
}

fn posting_member_text(alloc: Global, base: Base, place: u64, name: &str) -> Result<Text, NoMemory>
    ensures { IfOk result (λ text. text ≡ text_of_path (below (path_of (Path.Posting base place)) name.now)) }
{
    let item = posting_text(alloc, base, place)?;
    joined(alloc, &[as_str(&item), ".", name])
}

fn path_text<'a>(alloc: Global, path: &Path<'a>) -> Result<Text, NoMemory>
    ensures { IfOk result (λ text. text ≡ text_of_path (path_of path.entry.now)) }
{
    match path {
        Path::Holder(holder) => holder_text(alloc, *holder),
        Path::Posting(base, place) => posting_text(alloc, *base, *place),
        Path::PostingMember(base, place, name) => posting_member_text(alloc, *base, *place, name),
        Path::Named(holder, name) => named_text(alloc, *holder, name),
    }
}

/// The refusal of what stands at the path.
pub fn wrong(alloc: Global, path: &Path<'_>, reason: Reason) -> CodecStop
    ensures { StopsWith (MemberRefusal (text_of_path (path_of path.entry.now)) reason) result }
{
    match path_text(alloc, path) {
        Ok(path) => CodecStop::Refused(Refusal::Member { path, reason }),
        Err(_) => CodecStop::NoMemory,
    }
}
