//! Refusals of what a request has beside its body.

ghost use Rattle.std.specs.Prelude.{◌≡◌, IfOk};
ghost use Rattle.lg_types.specs.declared.refusals.Refusal.TheVariants.{Member as MemberRefusal, Parameter as ParameterRefusal};
ghost use Rattle.lg_codec.specs.Stops.{StopsWith};

use lg_base::NoMemory;
use lg_codec::CodecStop;
use lg_types::{Reason, Refusal, Text};
use std::alloc::Global;

fn text_of(alloc: Global, text: &str) -> Result<Text, NoMemory>
    ensures { IfOk result (λ copied. copied ≡ text.now) }
{
    Ok(Text::from_vec(Vec::from_slice(alloc, text.as_bytes())?))
}

/// The refusal of what stands at a path, or of a name of the target's path.
pub fn wrong(alloc: Global, path: &str, reason: Reason) -> CodecStop
    ensures { StopsWith (MemberRefusal path.now reason) result }
{
    match text_of(alloc, path) {
        Ok(path) => CodecStop::Refused(Refusal::Member { path, reason }),
        Err(_) => CodecStop::NoMemory,
    }
}

/// The refusal of a parameter.
pub fn bad_parameter(alloc: Global, name: &str) -> CodecStop
    ensures { StopsWith (ParameterRefusal name.now) result }
{
    match text_of(alloc, name) {
        Ok(name) => CodecStop::Refused(Refusal::Parameter { name }),
        Err(_) => CodecStop::NoMemory,
    }
}
