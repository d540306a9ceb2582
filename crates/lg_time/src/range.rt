ghost use Rattle.std.specs.Prelude.{◌↔◌, IsTrue};
ghost use Rattle.lg_time.specs.Moment.{IsInMoments};

/// The first moment, 0001-01-01T00:00:00Z.
pub const FIRST_MOMENT: i64 = -62_135_596_800_000_000;

/// The last moment, 9999-12-31T23:59:59.999999Z.
pub const LAST_MOMENT: i64 = 253_402_300_799_999_999;

/// Whether a number of microseconds since 1970-01-01T00:00:00Z is a moment.
pub fn is_moment(microseconds: i64) -> bool
    ensures { IsTrue result ↔ IsInMoments microseconds }
{
    (FIRST_MOMENT..=LAST_MOMENT).contains(&microseconds)
}
