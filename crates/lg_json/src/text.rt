//! Texts: what stands between quotes (RFC 8259, section 7).
ghost use Rattle.std.specs.Prelude.{◌≡◌, ◌<◌, ◌≤◌, true, false, length, slice_index, slice_range, IfOk, IsTrue, ◌↔◌};
ghost use Rattle.std.specs.List.{AllByRecursion};
ghost use Rattle.lg_json.specs.Reading as machine;
ghost use Rattle.lg_json.specs.Tokens.{IsText};
ghost use Rattle.lg_json.specs.declared.state.TextMode.TheVariants.{Character};
ghost use Rattle.lg_containers.specs.declared.utf8.Utf8State.TheVariants.{Boundary};
ghost use Rattle.lg_json.specs.Texts.{IsPlain, StandsSome, TextMoves};

use crate::json::JsonFault;
use crate::state::TextMode;
use crate::text_step::text_step;
use lg_containers::Text;
use lg_containers::utf8::Utf8State;
use std::alloc::{AllocError, Global};

/// Whether the byte is a character of ASCII that stands for itself.
fn is_plain(byte: u8) -> bool
    ensures { IsTrue result ↔ IsPlain byte }
{
    byte >= 32 && byte < 128 && byte != b'"' && byte != b'\\'
}

/// The end of the run of plain bytes from `place` on.
fn run_end(bytes: &[u8], place: usize) -> usize
    requires { place ≤ length bytes.now }
    ensures above { place ≤ result }
    ensures within { result ≤ length bytes.now }
    ensures plain { AllByRecursion IsPlain (slice_range bytes.now place result) }
{
    let mut at = place;
    while at < bytes.len() {
        if !is_plain(bytes[at]) {
            return at;
        }
        at += 1;
    }
    at
}

fn begins_character(mode: TextMode) -> bool
    ensures { IsTrue result ↔ (mode ≡ Character Boundary) }
{
    matches!(mode, TextMode::Character(Utf8State::Boundary))
}

/// Reads on in a text, where the byte at `place` doesn't end it: its mode and the place after what
/// was read, or `None` where no text goes on so.
fn read_on(
    text: &mut Vec<u8>,
    mode: TextMode,
    bytes: &[u8],
    place: usize,
) -> Result<Option<(TextMode, usize)>, AllocError>
    requires within { place < length bytes.now }
    requires goes_on { machine.closes mode (slice_index bytes.now place) ≡ false }
    requires stands { StandsSome text.old.items mode }
    ensures { IfOk result (TextMoves bytes.now place text.old.items mode text.new.items) }
{
    if begins_character(mode) {
        let end = run_end(bytes, place);
        if place < end {
            text.extend_from_slice(&bytes[place..end])?;
            return Ok(Some((mode, end)));
        }
    }
    match text_step(text, mode, bytes[place])? {
        Some(next) => Ok(Some((next, place + 1))),
        None => Ok(None),
    }
}

/// Whether the byte is the closing quote.
fn closes(mode: TextMode, byte: u8) -> bool
    ensures { result ≡ machine.closes mode byte }
{
    if let TextMode::Character(Utf8State::Boundary) = mode {
        return byte == b'"';
    }
    false
}

/// Reads the text that begins at `place`, piece by piece.
fn read_mixed(alloc: Global, bytes: &[u8], place: usize) -> Result<(Text, usize), JsonFault>
    requires { place ≤ length bytes.now }
    ensures { IsText bytes.now place result }
{
    let mut text = Vec::new(alloc);
    let mut mode = TextMode::Character(Utf8State::Boundary);
    let mut at = place;
    'pieces: while at < bytes.len() {
        if closes(mode, bytes[at]) {
            return Ok((Text::from_vec(text), at));
        }
        match read_on(&mut text, mode, bytes, at)? {
            Some((next, after)) => {
                mode = next;
                at = after;
            }
            None => return Err(JsonFault::Syntax { place: at }),
        }
    }
    Err(JsonFault::Syntax { place: bytes.len() })
}

/// Reads the text that begins at `place`, after its first quote: the text, and the place of its
/// closing quote.
pub fn read_text(alloc: Global, bytes: &[u8], place: usize) -> Result<(Text, usize), JsonFault>
    requires { place ≤ length bytes.now }
    ensures { IsText bytes.now place result }
{
    let end = run_end(bytes, place);
    if end < bytes.len() {
        if bytes[end] == b'"' {
            return Ok((Text::copy_of(alloc, &bytes[place..end])?, end));
        }
    }
    read_mixed(alloc, bytes, place)
}
