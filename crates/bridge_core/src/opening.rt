//! The status of files that could not be opened, and a turn that is let go of.

ghost use Rattle.std.specs.Prelude.{◌≡◌};
ghost use Rattle.bridge_core.specs.Opening.{status_of_fault};

use crate::bridge::Turned;
use crate::status::Status;
use name_store::OpenFault;

/// The status of files that couldn't be opened.
pub fn unopened(fault: OpenFault) -> Status
    ensures { result ≡ status_of_fault fault }
{
    match fault {
        OpenFault::Uninitialised => Status::Uninitialised,
        OpenFault::Damaged { file, at } => Status::Damaged { file, at },
        OpenFault::DiskFault => Status::DiskFault,
        OpenFault::NoMemory => Status::NoMemory,
    }
}

/// Lets go of the bridge, if there is one.
pub fn let_go(last: Turned) {
    if let Turned::On(bridge) = last {
        bridge.let_go();
    }
}
