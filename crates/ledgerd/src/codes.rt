//! The number with which the program ends.

ghost use Rattle.std.specs.Prelude.{◌≡◌};
ghost use Rattle.ledgerd.specs.Codes.{status_code};

use lg_base::Status;

/// The exit status.
pub fn code(status: Status) -> u8
    ensures { result ≡ status_code status }
{
    status as u8
}
