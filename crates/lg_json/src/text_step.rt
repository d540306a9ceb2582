//! One more byte of a text between its quotes.
ghost use Rattle.std.specs.Prelude.{◌≡◌, ◌<◌, ◌++◌, OnOk, IfOk};
ghost use Rattle.std.specs.Char.{encode_utf8, digit_value};
ghost use Rattle.lg_json.specs.Reading as machine;
ghost use Rattle.lg_json.specs.View.{with_text};
ghost use Rattle.lg_json.specs.declared.state.TextMode.TheVariants.{Character};
ghost use Rattle.lg_containers.specs.declared.utf8.Utf8State.TheVariants.{Boundary};

use crate::state::TextMode;
use lg_containers::utf8::{self, Utf8State};
use std::alloc::AllocError;

/// The value of a digit or a letter, from 0 for `0` to 35 for `z`, and 36 for any other byte.
fn digit_of(byte: u8) -> u16
    ensures { result ≡ digit_value byte }
{
    match byte {
        b'0'..=b'9' => (byte - 48) as u16,
        b'A'..=b'Z' => (byte - 55) as u16,
        b'a'..=b'z' => (byte - 87) as u16,
        _ => 36,
    }
}

/// The character that a byte after a backslash stands for.
fn short_escape(byte: u8) -> Option<u8>
    ensures { result ≡ machine.short_escape byte }
{
    match byte {
        b'"' => Some(34),
        b'\\' => Some(92),
        b'/' => Some(47),
        b'b' => Some(8),
        b'f' => Some(12),
        b'n' => Some(10),
        b'r' => Some(13),
        b't' => Some(9),
        _ => None,
    }
}

fn hex_more(value: u16, digit: u16) -> u16
    ensures { result ≡ machine.hex_more value digit }
{
    ((value as u32 * 16 + digit as u32) % 65536) as u16
}

fn joined(high: u16, low: u16) -> u32
    ensures value { result ≡ machine.joined high low }
    ensures bound { result < 0x11_0000 }
{
    0x1_0000 + ((high % 1024) as u32 * 1024 + (low % 1024) as u32)
}

/// Appends a character in UTF-8.
fn push_char(text: &mut Vec<u8>, code: u32) -> Result<(), AllocError>
    requires { code < 0x11_0000 }
    ensures { OnOk result (text.new.items ≡ text.old.items ++ encode_utf8 code) }
{
    if code < 0x80 {
        text.extend_from_slice(&[code as u8])
    } else if code < 0x800 {
        text.extend_from_slice(&[(0xC0 + code / 64) as u8, (0x80 + code % 64) as u8])
    } else if code < 0x1_0000 {
        text.extend_from_slice(&[
            (0xE0 + code / 4096) as u8,
            (0x80 + code / 64 % 64) as u8,
            (0x80 + code % 64) as u8,
        ])
    } else {
        text.extend_from_slice(&[
            (0xF0 + code / 262144) as u8,
            (0x80 + code / 4096 % 64) as u8,
            (0x80 + code / 64 % 64) as u8,
            (0x80 + code % 64) as u8,
        ])
    }
}

/// The byte, which stands for itself, in a character's state.
fn push_plain(
    text: &mut Vec<u8>,
    byte: u8,
    state: Option<Utf8State>,
) -> Result<Option<TextMode>, AllocError>
    ensures { IfOk result (λ m. with_text text.new.items m ≡ machine.character_step text.old.items byte state) }
{
    match state {
        None => Ok(None),
        Some(state) => {
            text.extend_from_slice(&[byte])?;
            Ok(Some(TextMode::Character(state)))
        }
    }
}

fn push_escaped(text: &mut Vec<u8>, escaped: Option<u8>) -> Result<Option<TextMode>, AllocError>
    ensures { IfOk result (λ m. with_text text.new.items m ≡ machine.escape_step text.old.items escaped) }
{
    match escaped {
        None => Ok(None),
        Some(byte) => {
            text.extend_from_slice(&[byte])?;
            Ok(Some(TextMode::Character(Utf8State::Boundary)))
        }
    }
}

/// One more digit of a `\u` escape, of which `left` were to come.
fn unit_step(text: &mut Vec<u8>, left: u8, unit: u16) -> Result<Option<TextMode>, AllocError>
    ensures { IfOk result (λ m. with_text text.new.items m ≡ machine.unit_step text.old.items left unit) }
{
    if left == 1 {
        if unit >= 0xD800 && unit <= 0xDBFF {
            return Ok(Some(TextMode::AfterHigh(unit)));
        }
        push_char(text, unit as u32)?;
        return Ok(Some(TextMode::Character(Utf8State::Boundary)));
    }
    if left == 3 {
        if unit < 0xDC {
            return Ok(Some(TextMode::Unit(2, unit)));
        }
        if unit > 0xDF {
            return Ok(Some(TextMode::Unit(2, unit)));
        }
        return Ok(None);
    }
    Ok(Some(TextMode::Unit(left.saturating_sub(1), unit)))
}

/// The same for the low surrogate that has to follow `high`.
fn low_step(
    text: &mut Vec<u8>,
    high: u16,
    left: u8,
    unit: u16,
) -> Result<Option<TextMode>, AllocError>
    ensures { IfOk result (λ m. with_text text.new.items m ≡ machine.low_step text.old.items high left unit) }
{
    if left == 1 {
        push_char(text, joined(high, unit))?;
        return Ok(Some(TextMode::Character(Utf8State::Boundary)));
    }
    if left == 4 {
        if unit == 13 {
            return Ok(Some(TextMode::Low(high, 3, unit)));
        }
        return Ok(None);
    }
    if left == 3 {
        if unit < 0xDC {
            return Ok(None);
        }
        return Ok(Some(TextMode::Low(high, 2, unit)));
    }
    Ok(Some(TextMode::Low(high, left.saturating_sub(1), unit)))
}

/// The mode after a byte that doesn't end the text, or `None` where no text goes on so.
#[tactic(auto, unfolding(crate::specs::Reading::text_step))]
pub fn text_step(
    text: &mut Vec<u8>,
    mode: TextMode,
    byte: u8,
) -> Result<Option<TextMode>, AllocError>
    ensures { IfOk result (λ m. with_text text.new.items m ≡ machine.text_step text.old.items mode byte) }
{
    match mode {
        TextMode::Character(Utf8State::Boundary) => plain_step(text, byte),
        TextMode::Character(state) => push_plain(text, byte, utf8::next(state, byte)),
        TextMode::Escape => {
            if byte == b'u' {
                return Ok(Some(TextMode::Unit(4, 0)));
            }
            push_escaped(text, short_escape(byte))
        }
        TextMode::Unit(left, unit) => {
            let digit = digit_of(byte);
            if digit < 16 {
                unit_step(text, left, hex_more(unit, digit))
            } else {
                Ok(None)
            }
        }
        TextMode::AfterHigh(high) => {
            if byte == b'\\' {
                return Ok(Some(TextMode::AfterHighEscape(high)));
            }
            Ok(None)
        }
        TextMode::AfterHighEscape(high) => {
            if byte == b'u' {
                return Ok(Some(TextMode::Low(high, 4, 0)));
            }
            Ok(None)
        }
        TextMode::Low(high, left, unit) => {
            let digit = digit_of(byte);
            if digit < 16 {
                low_step(text, high, left, hex_more(unit, digit))
            } else {
                Ok(None)
            }
        }
    }
}

/// The same where a character begins.
#[tactic(auto, unfolding(crate::specs::Reading::text_step))]
fn plain_step(text: &mut Vec<u8>, byte: u8) -> Result<Option<TextMode>, AllocError>
    ensures { IfOk result (λ m. with_text text.new.items m ≡ machine.text_step text.old.items (Character Boundary) byte) }
{
    if byte == b'\\' {
        return Ok(Some(TextMode::Escape));
    }
    if byte < 32 {
        return Ok(None);
    }
    push_plain(text, byte, utf8::next(Utf8State::Boundary, byte))
}
