//! Parameters that are words.

ghost use Rattle.std.specs.Prelude.{◌≡◌, Some, bytes_eq, codes};
ghost use Rattle.std.specs.List.{list_any, list_all};
ghost use Rattle.lg_readings.specs.Answers.{known};
ghost use Rattle.lg_readings.specs.Parameters as values;
ghost use Rattle.lg_readings.specs.Targets.{first_value, all_values};
ghost use Rattle.lg_codec.specs.Results.{Reads};
ghost use Rattle.lg_routes.specs.Seen.{parameters_seen};

use crate::bytes::same_bytes;
use crate::parameters::{Parameter, first_value};
use crate::refusals::bad_parameter;
use lg_codec::CodecStop;
use lg_types::Expand;
use std::alloc::Global;

fn is_expand_word(word: &[u8]) -> bool
    ensures { result ≡ values.is_word_of values.expand_words word.now }
{
    if same_bytes(word, b"volumes") {
        return true;
    }
    same_bytes(word, b"effectiveVolumes")
}

/// Whether each `expand` is a word of it.
fn are_expand_words(parameters: &[Parameter<'_>]) -> bool
    ensures { result ≡ list_all (values.is_word_of values.expand_words) (all_values (codes "expand") (parameters_seen parameters.now)) }
{
    for parameter in parameters {
        if same_bytes(parameter.name.as_bytes(), b"expand") {
            if !is_expand_word(parameter.value.as_bytes()) {
                return false;
            }
        }
    }
    true
}

/// Whether some `expand` is the word.
fn expands(parameters: &[Parameter<'_>], word: &[u8]) -> bool
    ensures { result ≡ list_any (bytes_eq word.now) (all_values (codes "expand") (parameters_seen parameters.now)) }
{
    for parameter in parameters {
        if same_bytes(parameter.name.as_bytes(), b"expand") {
            if same_bytes(word, parameter.value.as_bytes()) {
                return true;
            }
        }
    }
    false
}

/// Which volumes are to be shown: each `expand` counts.
pub fn expand(alloc: Global, parameters: &[Parameter<'_>]) -> Result<Expand, CodecStop>
    ensures { Reads (known (values.expand_parameter (parameters_seen parameters.now))) result }
{
    if !are_expand_words(parameters) {
        return Err(bad_parameter(alloc, "expand"));
    }
    let volumes = expands(parameters, b"volumes");
    let effective = expands(parameters, b"effectiveVolumes");
    Ok(Expand { volumes, effective })
}

fn check_hash_word(alloc: Global, word: &[u8]) -> Result<(), CodecStop>
    ensures { Reads (known (values.hashes_in (Some word.now))) result }
{
    if same_bytes(word, b"recompute") {
        return Ok(());
    }
    if same_bytes(word, b"check") {
        return Ok(());
    }
    Err(bad_parameter(alloc, "hashes"))
}

/// What an import does with hashes is one of two words.
pub fn check_hashes(alloc: Global, parameters: &[Parameter<'_>]) -> Result<(), CodecStop>
    ensures { Reads (known (values.hashes_parameter (parameters_seen parameters.now))) result }
{
    match first_value(parameters, b"hashes") {
        Some(word) => check_hash_word(alloc, word),
        None => Ok(()),
    }
}

/// Whether an import computes hashes anew.
pub fn recomputes(parameters: &[Parameter<'_>]) -> bool
    ensures { result ≡ values.is_recompute (first_value (codes "hashes") (parameters_seen parameters.now)) }
{
    match first_value(parameters, b"hashes") {
        Some(word) => same_bytes(word, b"recompute"),
        None => false,
    }
}
