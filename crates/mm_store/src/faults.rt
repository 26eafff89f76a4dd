//! How an error of the store is told.

ghost use Rattle.std.specs.Prelude.{◌≡◌};
ghost use Rattle.mm_store.specs.Faults as spec;

use mm_definitions::answers::Fault;
use sqlite::{Error, ErrorCode};

/// Whether memory was refused.
pub fn wants_memory(error: &Error) -> bool
    ensures { result ≡ spec.wants_memory error.now }
{
    matches!(error, Error::SqliteFailure(ErrorCode::OutOfMemory))
}

/// 90 where memory was refused, 91 for every other error of the store.
pub fn fault_of(error: Error) -> Fault
    ensures { result ≡ spec.told_as error }
{
    if wants_memory(&error) {
        Fault::MEMORY
    } else {
        Fault::STORE
    }
}
