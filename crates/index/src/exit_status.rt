//! The exit status of a program that serves requests.

ghost use Rattle.std.specs.Prelude.{◌≡◌, IsErr, IsOk};

use common::RunFault;

/// Returns the exit status of a program whose run ended with `outcome`.
pub fn status_of(outcome: &Result<(), RunFault>) -> u8
    ensures ok { IsOk outcome.now → result ≡ 0 }
    ensures err { IsErr outcome.now → result ≡ 1 }
{
    match outcome {
        Ok(()) => 0,
        Err(RunFault::ReadFault | RunFault::WriteFault) => 1,
    }
}
