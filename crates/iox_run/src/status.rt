//! The exit status of the program.
ghost use Rattle.std.specs.Prelude.{◌≡◌};
ghost use Rattle.iox_run.specs.Statuses.{status_of};

use iox_streams::Fault;

/// The exit status of the program.
pub fn status_of(ended: Result<(), Fault>) -> u8
    ensures { result ≡ status_of ended }
{
    match ended {
        Ok(()) => 0,
        Err(Fault::Read) => 1,
        Err(Fault::Write) => 2,
        Err(Fault::WantOfMemory) => 3,
    }
}
