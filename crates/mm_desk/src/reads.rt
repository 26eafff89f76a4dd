//! What a desk works on.

ghost use Rattle.std.specs.Prelude.{◌≡◌};
ghost use Rattle.mm_reads.specs.Viewers.{LeavesPackage};
ghost use Rattle.mm_desk.specs.Sittings.{Stays};

use mm_reads::Viewer;
use mm_run::Apply;

/// A thing that shows the parts of a package and that commands are applied to, as a session is.
pub trait Desk: Viewer + Apply {
    /// Whether it has to be opened again.
    fn is_over(&self) -> bool
        ensures { result ≡ Self.Apply.has_failed self.now };

    // What leaves the package as it is leaves the session as it is.
    ghost stays: { (old new : Self) → Self.Viewer.has_failed new ≡ Self.Viewer.has_failed old
        → LeavesPackage (Self.store old) (Self.store new) → Stays Self.Apply old new };
}
