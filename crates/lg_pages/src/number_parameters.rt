//! Parameters that are whole numbers.

ghost use Rattle.std.specs.Prelude.{Some};
ghost use Rattle.lg_codec.specs.Results.{Reads};
ghost use Rattle.lg_pages.specs.Numbers.{SizeIn, GroupIn};
ghost use Rattle.lg_routes.specs.Seen.{parameters_seen};
ghost use Rattle.lg_readings.specs.Parameters as values;

use crate::numbers::number_up_to;
use lg_codec::CodecStop;
use lg_routes::{Parameter, bad_parameter, first_value};
use std::alloc::Global;

fn size_in(alloc: Global, bytes: &[u8]) -> Result<u8, CodecStop>
    ensures { Reads (SizeIn (Some bytes.now)) result }
{
    match number_up_to(bytes, 100) {
        None => Err(bad_parameter(alloc, "pageSize")),
        Some(size) => {
            if size == 0 {
                return Err(bad_parameter(alloc, "pageSize"));
            }
            Ok(size as u8)
        }
    }
}

/// How many items a page has at most: 1 to 100. A larger number counts as 100, and an absent parameter as 15. Refused is what is no
/// whole number from 1 in decimal without leading zeros.
pub fn page_size(alloc: Global, parameters: &[Parameter<'_>]) -> Result<u8, CodecStop>
    ensures { Reads (values.PageSize (parameters_seen parameters.now)) result }
{
    match first_value(parameters, b"pageSize") {
        Some(bytes) => size_in(alloc, bytes),
        None => Ok(15),
    }
}

fn group_in(alloc: Global, bytes: &[u8]) -> Result<u32, CodecStop>
    ensures { Reads (GroupIn (Some bytes.now)) result }
{
    match number_up_to(bytes, 1 << 32) {
        None => Err(bad_parameter(alloc, "groupBy")),
        Some(group) => {
            if group > 4_294_967_295 {
                return Err(bad_parameter(alloc, "groupBy"));
            }
            Ok(group as u32)
        }
    }
}

/// To how many segments addresses are cut: 0, for whole addresses, where the parameter is absent. Refused is what is no whole number
/// below 2^32 in decimal without leading zeros.
pub fn group_by(alloc: Global, parameters: &[Parameter<'_>]) -> Result<u32, CodecStop>
    ensures { Reads (values.GroupBy (parameters_seen parameters.now)) result }
{
    match first_value(parameters, b"groupBy") {
        Some(bytes) => group_in(alloc, bytes),
        None => Ok(0),
    }
}
