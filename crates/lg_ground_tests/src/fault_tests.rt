//! Faults of JSON with their places: at the start, inside and at the end of what is read.

use crate::json_rows::{check_faults, not_whole, repeated, syntax, too_wide};

#[test]
fn syntax_is_placed_after_the_longest_prefix(rt: HostRuntime) {
    check_faults(
        &rt,
        rt.alloc(),
        &[
            (b"", syntax(0)),
            (b"01", syntax(1)),
            (b"nul", syntax(3)),
            (b"nulL", syntax(3)),
            (b"[1,]", syntax(3)),
            (b"[1 2]", syntax(3)),
            (b"[1,,2]", syntax(3)),
            (b"[1", syntax(2)),
            (b"]", syntax(0)),
            (b"[}", syntax(1)),
            (b"\xEF\xBB\xBF1", syntax(0)),
        ],
    );
}

#[test]
fn syntax_of_objects(rt: HostRuntime) {
    check_faults(
        &rt,
        rt.alloc(),
        &[
            (b"{\"a\" 1}", syntax(5)),
            (b"{\"a\":1,}", syntax(7)),
            (b"{1:2}", syntax(1)),
            (b"{\"a\":1}x", syntax(7)),
        ],
    );
}

#[test]
fn syntax_of_texts(rt: HostRuntime) {
    check_faults(
        &rt,
        rt.alloc(),
        &[
            (b"\"a", syntax(2)),
            (b"\"\x01\"", syntax(1)),
            (b"\"\\x\"", syntax(2)),
            (b"\"\\u12G4\"", syntax(5)),
        ],
    );
}

#[test]
fn parts_of_numbers(rt: HostRuntime) {
    check_faults(
        &rt,
        rt.alloc(),
        &[
            (b"[1.0]", not_whole(1)),
            (b"1.5 ", not_whole(0)),
            (b" 1e5", not_whole(1)),
            (b"[-1E5]", not_whole(1)),
            (b"[1,2e3,4]", not_whole(3)),
            (b"[1,{\"a\":2E0", not_whole(8)),
            (b"170141183460469231731687303715884105728.", not_whole(0)),
            (b"-", syntax(1)),
            (b"-a", syntax(1)),
            (b"1 2", syntax(2)),
        ],
    );
}

#[test]
fn numbers_beyond_the_limits(rt: HostRuntime) {
    check_faults(
        &rt,
        rt.alloc(),
        &[
            (b"-170141183460469231731687303715884105729", too_wide(0)),
            (b"170141183460469231731687303715884105728x", too_wide(0)),
            (b"170141183460469231731687303715884105728]", too_wide(0)),
            (b"[170141183460469231731687303715884105728]", too_wide(1)),
            (
                b"[1,170141183460469231731687303715884105728,2]",
                too_wide(3),
            ),
            (
                b"{\"a\":-170141183460469231731687303715884105729",
                too_wide(5),
            ),
        ],
    );
}

#[test]
fn repeated_names(rt: HostRuntime) {
    check_faults(
        &rt,
        rt.alloc(),
        &[
            (b"{\"a\":1,\"a\":2}", repeated(7)),
            (b"{\"a\":1,\"\\u0061\":2}", repeated(7)),
            (b"{\"\":1,\"\" ", repeated(6)),
            (b"{\"\":0,\"\":1}", repeated(6)),
            (b"[{\"a\":1,\"b\":2,\"a\":3},4]", repeated(14)),
            (b"{\"a\":{\"b\":1,\"b\"", repeated(12)),
        ],
    );
}
