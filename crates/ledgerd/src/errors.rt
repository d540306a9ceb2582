//! What stands on standard error.

ghost use Rattle.std.specs.Prelude.{◌≡◌};
ghost use Rattle.ledgerd.specs.Errors.{error_text as text_of_error};

use lg_base::Status;

/// The line on standard error; nothing where all was done.
pub fn error_text(status: Status) -> &'static [u8]
    ensures { result.now ≡ text_of_error status }
{
    match status {
        Status::Done => b"",
        Status::Words =>
            b"usage: ledgerd run | batch N | verify [recompute] | make SEED N | script SEED N | serve HOST:PORT N | usage\n",
        Status::ReadFault => b"ledgerd: read fault\n",
        Status::WriteFault => b"ledgerd: write fault\n",
        Status::Memory => b"ledgerd: out of memory\n",
        Status::InputLimit => b"ledgerd: input passes the limit\n",
        Status::BadLines => b"",
    }
}
