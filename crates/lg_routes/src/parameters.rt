//! The parameters of a target's query.

ghost use Rattle.std.specs.Prelude.{◌≡◌, map, IfOk};
ghost use Rattle.form_urlencoded.specs.Form as form;
ghost use Rattle.lg_readings.specs.Parameters as values;
ghost use Rattle.lg_readings.specs.Targets as targets;
ghost use Rattle.lg_routes.specs.Seen.{parameters_seen, bytes_seen};

use crate::bytes::same_bytes;
use lg_base::NoMemory;
use std::alloc::Global;
use std::borrow::CowStr;

/// A parameter, decoded as that of a form (URL Standard, section 5.1).
#[derive(Drop)]
pub struct Parameter<'a> {
    pub name: CowStr<'a>,
    pub value: CowStr<'a>,
}

/// The parameters of a query, in their order.
pub fn read_parameters<'a>(alloc: Global, query: &'a [u8]) -> Result<Vec<Parameter<'a>>, NoMemory>
    ensures { IfOk result (λ ps. parameters_seen ps.items ≡ map targets.parameter_of (form.raw_pairs query.now)) }
{
    let mut parameters = Vec::new(alloc);
    for pair in form_urlencoded::parse(alloc, query) {
        let (name, value) = pair?;
        parameters.push(Parameter { name, value })?;
    }
    Ok(parameters)
}

/// The value of the first parameter of the name.
pub fn first_value<'a>(parameters: &'a [Parameter<'_>], name: &[u8]) -> Option<&'a [u8]>
    ensures { bytes_seen result ≡ targets.first_value name.now (parameters_seen parameters.now) }
{
    for parameter in parameters {
        if same_bytes(parameter.name.as_bytes(), name) {
            return Some(parameter.value.as_bytes());
        }
    }
    None
}

/// Whether a parameter has the name.
pub fn has_parameter(parameters: &[Parameter<'_>], name: &[u8]) -> bool
    ensures { result ≡ values.has_parameter name.now (parameters_seen parameters.now) }
{
    first_value(parameters, name).is_some()
}
