//! What the fields of a head say.

ghost use Rattle.std.specs.Prelude.{◌≡◌, ◌^◌, ◌-◌, ℕ, min, length, map, All, IfSome, codes};
ghost use Rattle.std.specs.List.{list_all};
ghost use Rattle.std.specs.Option.{option_map};
ghost use Rattle.httparse.specs.Spans.{IsWithin, IsHeaderWithin, span_bytes, header_bytes};
ghost use Rattle.http1.specs.Fields.{elements_named, has_option};
ghost use Rattle.lg_heads.specs.Fields.{first_value, keeps_length, stated_length, is_coded, framing_of};

use crate::framing::Framing;
use crate::lengths::{is_same_number, value_within};
use http1::fields::KnownFields;
use http1::text::eq_ignore_case;
use httparse::spans::{HeaderSpan, Span};

/// Where the value of the first field with this name is.
pub(crate) fn first_value(bytes: &[u8], headers: &[HeaderSpan], name: &[u8]) -> Option<Span>
    requires { All (IsHeaderWithin (length bytes.now)) headers.now }
    ensures value { option_map (span_bytes bytes.now) result ≡ first_value name.now (map (header_bytes bytes.now) headers.now) }
    ensures within { (n : ℕ) → All (IsHeaderWithin n) headers.now → IfSome result (IsWithin n) }
{
    'fields: for header in headers {
        if eq_ignore_case(header.name.of(bytes), name) {
            return Some(header.value);
        }
    }
    None
}

/// What follows the head.
pub(crate) fn framing(bytes: &[u8], headers: &[HeaderSpan]) -> Framing
    requires { All (IsHeaderWithin (length bytes.now)) headers.now }
    ensures { result ≡ framing_of (map (header_bytes bytes.now) headers.now) }
{
    match content_length(bytes, headers) {
        None => Framing::Bad,
        Some(_) if has_coding(bytes, headers) => Framing::Coded,
        Some(length) => Framing::Length(length),
    }
}

/// Whether the connection closes by a `Connection` field.
pub(crate) fn closes(bytes: &[u8], headers: &[HeaderSpan]) -> bool
    requires { All (IsHeaderWithin (length bytes.now)) headers.now }
    ensures { result ≡ has_option (codes "close") (elements_named (codes "connection") (map (header_bytes bytes.now) headers.now)) }
{
    KnownFields::from_spans(bytes, headers).close
}

/// The length that the `Content-Length` fields state, at most 2 ^ 64 - 1.
fn content_length(bytes: &[u8], headers: &[HeaderSpan]) -> Option<u64>
    requires { All (IsHeaderWithin (length bytes.now)) headers.now }
    ensures { result ≡ option_map (λ n. min n (2 ^ 64 - 1)) (stated_length (map (header_bytes bytes.now) headers.now)) }
{
    let Some(first) = first_value(bytes, headers, b"content-length") else {
        return Some(0);
    };
    let digits = first.of(bytes);
    if keep_length(bytes, headers, digits) {
        Some(value_within(digits))
    } else {
        None
    }
}

/// Whether each `Content-Length` field is the number of these digits.
fn keep_length(bytes: &[u8], headers: &[HeaderSpan], digits: &[u8]) -> bool
    requires { All (IsHeaderWithin (length bytes.now)) headers.now }
    ensures { result ≡ list_all (keeps_length digits.now) (map (header_bytes bytes.now) headers.now) }
{
    'fields: for header in headers {
        let is_length = eq_ignore_case(header.name.of(bytes), b"content-length");
        if is_length && !is_same_number(digits, header.value.of(bytes)) {
            return false;
        }
    }
    true
}

/// Whether there is a `Transfer-Encoding` field.
fn has_coding(bytes: &[u8], headers: &[HeaderSpan]) -> bool
    requires { All (IsHeaderWithin (length bytes.now)) headers.now }
    ensures { result ≡ is_coded (map (header_bytes bytes.now) headers.now) }
{
    first_value(bytes, headers, b"transfer-encoding").is_some()
}
