//! Why a reading ended early.

use std::alloc::AllocError;

/// Why the reading of a source ended before the source did.
#[derive(Clone, Copy, PartialEq, Eq, Debug)]
pub enum ReadEnd {
    /// A read failed.
    Fault,
    /// More bytes were taken than the limit allows.
    Limit,
    /// Memory was wanting.
    NoMemory,
}

impl From<AllocError> for ReadEnd {
    ghost use Rattle.std.specs.Prelude.{◌≡◌};
    ghost use Rattle.lg_base.specs.declared.read_end.ReadEnd.TheVariants.{NoMemory};

    ghost from_gives = { λ _ e. e ≡ NoMemory };

    fn from(_: AllocError) -> ReadEnd {
        ReadEnd::NoMemory
    }
}
