//! Texts of JSON: UTF-8, and escapes of surrogates, at their edges.

use crate::json_rows::{check_faults, check_texts, syntax};

#[test]
fn texts_with_escapes(rt: HostRuntime) {
    check_texts(
        &rt,
        rt.alloc(),
        &[
            (
                b"\"a\\\"\\\\\\/\\b\\f\\n\\r\\t\\u0041\"",
                b"a\"\\/\x08\x0C\x0A\x0D\x09A",
            ),
            (
                b"\"a\xC3\xA9\xE2\x82\xAC\xF0\x9F\x98\x80b\"",
                b"a\xC3\xA9\xE2\x82\xAC\xF0\x9F\x98\x80b",
            ),
            (b"\"\\u00e9\\u20AC\"", b"\xC3\xA9\xE2\x82\xAC"),
        ],
    );
}

#[test]
fn characters_at_the_edges_of_utf8(rt: HostRuntime) {
    check_texts(
        &rt,
        rt.alloc(),
        &[
            (b"\"\xC2\x80\xDF\xBF\"", b"\xC2\x80\xDF\xBF"),
            (
                b"\"\xE0\xA0\x80\xED\x9F\xBF\xEE\x80\x80\"",
                b"\xE0\xA0\x80\xED\x9F\xBF\xEE\x80\x80",
            ),
            (
                b"\"\xF0\x90\x80\x80\xF4\x8F\xBF\xBF\"",
                b"\xF0\x90\x80\x80\xF4\x8F\xBF\xBF",
            ),
        ],
    );
}

#[test]
fn bytes_beyond_the_edges_of_utf8(rt: HostRuntime) {
    check_faults(
        &rt,
        rt.alloc(),
        &[
            (b"\"\xC0\x80\"", syntax(1)),
            (b"\"\xC1\xBF\"", syntax(1)),
            (b"\"\xE0\x80\x80\"", syntax(2)),
            (b"\"\xE0\x9F\xBF\"", syntax(2)),
            (b"\"\xED\xA0\x80\"", syntax(2)),
            (b"\"\xED\xBF\xBF\"", syntax(2)),
            (b"\"\xF0\x8F\xBF\xBF\"", syntax(2)),
            (b"\"\xF4\x90\x80\x80\"", syntax(2)),
            (b"\"\xF5\x80\x80\x80\"", syntax(1)),
            (b"\"\xE2\x82\"", syntax(3)),
            (b"\"\x80\"", syntax(1)),
        ],
    );
}

#[test]
fn surrogates_in_pairs(rt: HostRuntime) {
    check_texts(
        &rt,
        rt.alloc(),
        &[
            (b"\"\\uD83D\\uDE00\"", b"\xF0\x9F\x98\x80"),
            (b"\"\\ud83d\\ude00\"", b"\xF0\x9F\x98\x80"),
            (b"\"\\uD800\\uDC00\"", b"\xF0\x90\x80\x80"),
            (b"\"\\uDBFF\\uDFFF\"", b"\xF4\x8F\xBF\xBF"),
            (b"\"\\u0000\\uFFFF\"", b"\x00\xEF\xBF\xBF"),
        ],
    );
}

#[test]
fn surrogates_alone(rt: HostRuntime) {
    check_faults(
        &rt,
        rt.alloc(),
        &[
            (b"\"\\uD800\"", syntax(7)),
            (b"\"\\uD800", syntax(7)),
            (b"\"\\uDC00\"", syntax(4)),
            (b"\"\\uD800\\u0041\"", syntax(9)),
            (b"\"\\uD800\\uD800\"", syntax(10)),
            (b"\"\\uD83D\\uDE00", syntax(13)),
        ],
    );
}
