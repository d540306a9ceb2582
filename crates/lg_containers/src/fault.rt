//! Why a name is refused.

pub use lg_base::NoMemory;

/// Why bytes are refused as a name.
#[derive(Clone, Copy, Debug, Drop, PartialEq, Eq)]
pub enum NameFault {
    /// The bytes are no name of the grammar. The place is the length of their longest prefix that is a prefix of
    /// some name.
    Bad { place: usize },
    /// There was no memory for the name.
    NoMemory,
}

impl From<NoMemory> for NameFault {
    ghost use Rattle.std.specs.Prelude.{◌≡◌};
    ghost use Rattle.lg_containers.specs.declared.fault.NameFault.TheVariants.{NoMemory};

    ghost from_gives = { λ _ e. e ≡ NoMemory };

    fn from(_: NoMemory) -> NameFault {
        NameFault::NoMemory
    }
}
