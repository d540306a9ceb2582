//! What the parameters of a query are read as.

ghost use Rattle.std.specs.Prelude.{◌≡◌, Some, map, bytes_eq};
ghost use Rattle.std.specs.Char.{to_ascii_lowercase};
ghost use Rattle.lg_readings.specs.Answers.{known};
ghost use Rattle.lg_readings.specs.Parameters as values;
ghost use Rattle.lg_codec.specs.Results.{Reads};
ghost use Rattle.lg_routes.specs.Seen.{parameters_seen, bytes_seen};

use crate::bytes::same_bytes;
use crate::parameters::{Parameter, first_value, has_parameter};
use crate::refusals::bad_parameter;
use lg_codec::CodecStop;
use lg_time::read_moment;
use std::alloc::Global;

fn moment_in(alloc: Global, name: &str, bytes: &[u8]) -> Result<Option<i64>, CodecStop>
    ensures { Reads (values.MomentValue name.now (Some bytes.now)) result }
{
    match read_moment(bytes) {
        Ok(moment) => Ok(Some(moment)),
        Err(_) => Err(bad_parameter(alloc, name)),
    }
}

/// A moment, in microseconds since 1970-01-01T00:00:00Z; none where the parameter is absent.
pub fn moment(
    alloc: Global,
    name: &str,
    parameters: &[Parameter<'_>],
) -> Result<Option<i64>, CodecStop>
    ensures { Reads (values.MomentParameter name.now (parameters_seen parameters.now)) result }
{
    match first_value(parameters, name.as_bytes()) {
        Some(bytes) => moment_in(alloc, name, bytes),
        None => Ok(None),
    }
}

/// Whether the bytes are the word, which is in small letters, in any letter case.
fn says_word(bytes: &[u8], word: &[u8]) -> bool
    requires { map to_ascii_lowercase word.now ≡ word.now }
    ensures { result ≡ bytes_eq (map values.lower_byte bytes.now) word.now }
{
    bytes.eq_ignore_ascii_case(word)
}

fn says_true(bytes: &[u8]) -> bool
    ensures { result ≡ values.says_true bytes.now }
{
    says_word(bytes, b"true") || same_bytes(bytes, b"1")
}

fn says_false(bytes: &[u8]) -> bool
    ensures { result ≡ values.says_false bytes.now }
{
    says_word(bytes, b"false") || same_bytes(bytes, b"0")
}

fn truth_in(alloc: Global, name: &str, bytes: &[u8]) -> Result<bool, CodecStop>
    ensures { Reads (known (values.truth_in name.now (Some bytes.now))) result }
{
    if says_true(bytes) {
        return Ok(true);
    }
    if says_false(bytes) {
        return Ok(false);
    }
    Err(bad_parameter(alloc, name))
}

/// A truth; false where the parameter is absent.
pub fn truth(alloc: Global, name: &str, parameters: &[Parameter<'_>]) -> Result<bool, CodecStop>
    ensures { Reads (known (values.truth_parameter name.now (parameters_seen parameters.now))) result }
{
    match first_value(parameters, name.as_bytes()) {
        Some(bytes) => truth_in(alloc, name, bytes),
        None => Ok(false),
    }
}

/// Refuses a truth that is true.
pub fn refuse_true(alloc: Global, name: &str, truth: bool) -> Result<(), CodecStop>
    ensures { Reads (known (values.unless_true name.now truth)) result }
{
    if truth {
        Err(bad_parameter(alloc, name))
    } else {
        Ok(())
    }
}

/// Refuses the parameters that no request may have.
pub fn refuse_order(alloc: Global, parameters: &[Parameter<'_>]) -> Result<(), CodecStop>
    ensures { Reads (known (values.no_order (parameters_seen parameters.now))) result }
{
    if has_parameter(parameters, b"order") {
        return Err(bad_parameter(alloc, "order"));
    }
    if has_parameter(parameters, b"sort") {
        return Err(bad_parameter(alloc, "sort"));
    }
    if has_parameter(parameters, b"reverse") {
        return Err(bad_parameter(alloc, "reverse"));
    }
    Ok(())
}
