//! Why a JSON value isn't read.

use lg_base::NoMemory;
use lg_types::Refusal;

/// Why a body, or a line of a log, isn't read.
#[derive(Drop)]
pub enum CodecStop {
    /// What is wrong with it: the first fault.
    Refused(Refusal),
    /// Memory is wanting.
    NoMemory,
}

impl From<NoMemory> for CodecStop {
    ghost use Rattle.std.specs.Prelude.{◌≡◌};
    ghost use Rattle.lg_codec.specs.declared.stop.CodecStop.TheVariants.{NoMemory};

    ghost from_gives = { λ _ f. f ≡ NoMemory };

    fn from(_: NoMemory) -> CodecStop {
        CodecStop::NoMemory
    }
}
