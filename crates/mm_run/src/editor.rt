//! What commands on an edition are applied to.

ghost use Rattle.std.specs.Prelude.{◌≡◌, ◌⊎◌, Err, IfOk, IfErr, false, true};
ghost use Rattle.mm_definitions.specs.Bounds.{current};
ghost use Rattle.mm_definitions.specs.Faults.{memory, store, reopen};
ghost use Rattle.mm_definitions.specs.Package.{Package};
ghost use Rattle.mm_definitions.specs.Rules.{Meets};
ghost use Rattle.mm_definitions.specs.Standing.{TellsState};
ghost use Rattle.mm_run.specs.Shown.{settled_since};

use crate::apply::Apply;
use mm_definitions::answers::Fault;
use mm_definitions::entries::EditionState;
use mm_definitions::names::Name;

/// A thing that commands are applied to, and that tells how an edition stands.
pub trait Editor: Apply {
    /// How an edition stands, or None where none has the name.
    fn edition(&mut self, name: &Name) -> Result<Option<EditionState>, Fault>
        ensures ended { Self.has_failed self.old ≡ true → (result ≡ Err reopen)
            × (self.new ≡ self.old) }
        ensures faults { Self.has_failed self.old ≡ false
            → IfErr result (λ fault. (fault.0 ≡ memory.0) ⊎ (fault.0 ≡ store.0)) }
        ensures same { Self.has_failed self.new ≡ Self.has_failed self.old }
        ensures clean { Self.is_clean self.new → Self.is_clean self.old }
        ensures settled { Self.is_clean self.new → (p : Package) → Self.seen self.old p
            → Meets current p
            → settled_since Self.seen Self.may_leave Self.stands_for self.old p self.new p }
        ensures tells { IfOk result
            (λ found. Self.is_clean self.new → (p : Package) → Self.seen self.old p
            → Meets current p → TellsState p name.now found) };
}
