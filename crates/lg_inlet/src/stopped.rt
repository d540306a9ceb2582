//! Why taking bytes stopped.

use std::alloc::AllocError;

/// Why bytes weren't taken to the end.
#[derive(Clone, Copy, PartialEq, Eq, Debug)]
pub enum Stopped {
    /// A read failed.
    Fault,
    /// As many bytes as are allowed were taken, and more are wanted.
    Spent,
    /// Memory was wanting.
    NoMemory,
    /// The feed that the bytes were passed to took no more.
    Full,
}

impl From<AllocError> for Stopped {
    ghost use Rattle.std.specs.Prelude.{◌≡◌};
    ghost use Rattle.lg_inlet.specs.declared.stopped.Stopped.TheVariants.{NoMemory};

    ghost from_gives = { λ _ e. e ≡ NoMemory };

    fn from(_: AllocError) -> Stopped {
        Stopped::NoMemory
    }
}
