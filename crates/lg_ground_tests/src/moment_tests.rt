//! Moments with their texts: the ends of the range, leap years, offsets, fractions, and texts that are none.

use lg_time::{BadMoment, FIRST_MOMENT, LAST_MOMENT, is_moment, print_moment, read_moment};
use std::process::Abort;

fn reads(rt: &impl Abort, rows: &[(&str, i64)]) {
    for (text, moment) in rows {
        assert_eq!(rt; read_moment(text.as_bytes()), Ok(*moment), "at {text}");
    }
}

fn refuses(rt: &impl Abort, texts: &[&str]) {
    for text in texts {
        assert_eq!(rt; read_moment(text.as_bytes()), Err(BadMoment), "at {text}");
    }
}

fn prints(rt: &impl Abort, rows: &[(i64, &str)]) {
    for (moment, text) in rows {
        let moment = *moment;
        assert!(rt; is_moment(moment), "at {text}");
        let mut into = [0; 27];
        let count = print_moment(moment, &mut into);
        assert_eq!(rt; &into[..count], text.as_bytes(), "at {text}");
        assert_eq!(rt; read_moment(&into[..count]), Ok(moment), "at {text}");
    }
}

#[test]
fn worked_rows(rt: HostRuntime) {
    reads(
        &rt,
        &[
            ("2024-02-29T23:59:59.9999995Z", 1_709_251_200_000_000),
            ("2024-01-01T02:00:00+02:00", 1_704_067_200_000_000),
        ],
    );
    refuses(
        &rt,
        &["2023-02-29T00:00:00Z", "9999-12-31T23:59:59.9999995Z"],
    );
    prints(
        &rt,
        &[
            (-1, "1969-12-31T23:59:59.999999Z"),
            (1_704_067_200_500_000, "2024-01-01T00:00:00.5Z"),
        ],
    );
}

#[test]
fn ends_of_the_range(rt: HostRuntime) {
    assert!(rt; !is_moment(FIRST_MOMENT - 1) && !is_moment(LAST_MOMENT + 1));
    reads(
        &rt,
        &[
            ("0001-01-01T00:00:00Z", FIRST_MOMENT),
            ("0001-01-01T00:01:00+00:01", FIRST_MOMENT),
            ("9999-12-31T23:59:59.9999994Z", LAST_MOMENT),
            ("9999-12-31T23:58:59.999999-00:01", LAST_MOMENT),
        ],
    );
    refuses(
        &rt,
        &[
            "0001-01-01T00:00:59+00:01",
            "9999-12-31T23:59:00-00:01",
            "0000-12-31T23:59:59-23:59",
        ],
    );
    prints(
        &rt,
        &[
            (FIRST_MOMENT, "0001-01-01T00:00:00Z"),
            (LAST_MOMENT, "9999-12-31T23:59:59.999999Z"),
        ],
    );
}

#[test]
fn leap_years(rt: HostRuntime) {
    reads(
        &rt,
        &[
            ("2000-02-29T00:00:00Z", 951_782_400_000_000),
            ("2024-02-29T00:00:00z", 1_709_164_800_000_000),
            ("0004-02-29t00:00:00Z", -62_035_891_200_000_000),
        ],
    );
    refuses(
        &rt,
        &[
            "1900-02-29T00:00:00Z",
            "1970-04-31T00:00:00Z",
            "1970-00-01T00:00:00Z",
            "1970-13-01T00:00:00Z",
            "1970-01-00T00:00:00Z",
        ],
    );
    prints(
        &rt,
        &[
            (951_782_399_999_990, "2000-02-28T23:59:59.99999Z"),
            (951_868_800_000_000, "2000-03-01T00:00:00Z"),
            (1_709_251_199_100_000, "2024-02-29T23:59:59.1Z"),
        ],
    );
}

#[test]
fn offsets(rt: HostRuntime) {
    reads(
        &rt,
        &[
            ("2024-03-01T00:30:00+01:00", 1_709_249_400_000_000),
            ("2023-12-31T23:30:00-01:00", 1_704_069_000_000_000),
            ("1970-01-01T23:59:59+23:59", 59_000_000),
        ],
    );
    refuses(
        &rt,
        &[
            "1970-01-01T00:00:00+24:00",
            "1970-01-01T00:00:00+00:60",
            "1970-01-01T00:00:00+0000",
        ],
    );
}

#[test]
fn fractions(rt: HostRuntime) {
    reads(
        &rt,
        &[
            ("1970-01-01T00:00:00.5Z", 500_000),
            ("1970-01-01T00:00:00.123456Z", 123_456),
            ("1970-01-01T00:00:00.1234565Z", 123_457),
            ("1970-01-01T00:00:00.1234564Z", 123_456),
            (
                "1970-01-01T00:00:00.1234564999999999999999999999999999999999Z",
                123_456,
            ),
            (
                "1970-01-01T00:00:00.0000005000000000000000000000000000000000+00:00",
                1,
            ),
            ("1969-12-31T23:59:59.9999995Z", 0),
        ],
    );
    prints(
        &rt,
        &[
            (0, "1970-01-01T00:00:00Z"),
            (1, "1970-01-01T00:00:00.000001Z"),
            (120, "1970-01-01T00:00:00.00012Z"),
            (1_000, "1970-01-01T00:00:00.001Z"),
        ],
    );
}

#[test]
fn other_texts(rt: HostRuntime) {
    refuses(
        &rt,
        &[
            "",
            "1970-01-01",
            "1970-01-01T00:00:00",
            "1970-01-01 00:00:00Z",
            "1970-01-01T24:00:00Z",
            "1970-01-01T00:60:00Z",
            "1970-01-01T00:00:60Z",
            "1970-01-01T00:00:00.Z",
            "1970-01-01T00:00:00.1x2Z",
            "1970-01-01T00:00:00ZZ",
            "1970-01-01T00:00:00Z+00:00",
            "+970-01-01T00:00:00Z",
        ],
    );
}
