//! What commands are applied to.

ghost use Rattle.std.specs.Prelude.{◌≡◌, ◌≢◌, ◌↔◌, Bool, true, false};
ghost use Rattle.mm_definitions.specs.Bounds.{current};
ghost use Rattle.mm_definitions.specs.Faults.{reopen};
ghost use Rattle.mm_definitions.specs.Package.{Package};
ghost use Rattle.mm_definitions.specs.Rules.{Meets};
ghost use Rattle.mm_run.specs.Answers.{is_fault};
ghost use Rattle.mm_run.specs.Applied.{IsApplied, IsApplyFault, OnFault};
ghost use Rattle.mm_run.specs.Shown.{seen_since};

use mm_definitions::answers::{Answer, Fault};
use mm_definitions::commands::Command;
use mm_definitions::moments::Moment;

/// A thing that commands are applied to, over databases that a crash may leave.
pub trait Apply {
    // A database that may be left, and whether it stands for a package.
    ghost Database: { Type 0 };

    ghost stands_for: { Database → Package → Type 0 };

    // The databases that a crash may leave now.
    ghost may_leave: { Self → Database → Type 0 };

    // Nobody else wrote the store up to now, and it gave back what was written.
    ghost is_clean: { Self → Type 0 };

    // It reads as a database for the package, and each database that may be left stands for it.
    ghost settled: { Self → Package → Type 0 };

    // It reads as a database for the package, whatever a crash would leave.
    ghost seen: { Self → Package → Type 0 };

    // It has to be opened again.
    ghost has_failed: { Self → Bool };

    /// Applies one command at a moment: `Ok` where it is done for good, `Refused` where nothing changed, and a fault,
    /// 90 or 91, where it may be done or not. After such a fault each call is answered 92 and changes nothing.
    fn apply(&mut self, command: &Command, at: Moment) -> Answer
        ensures faults { OnFault result IsApplyFault }
        ensures ended { has_failed self.old ≡ true → (result ≡ Answer.Fault reopen)
            × (self.new ≡ self.old) }
        ensures working { has_failed self.old ≡ false → OnFault result (λ fault. fault ≢ reopen.0) }
        ensures fails { has_failed self.old ≡ false → has_failed self.new ≡ is_fault result }
        ensures clean { is_clean self.new → is_clean self.old }
        ensures applied { is_clean self.new → (p : Package) → seen self.old p → Meets current p
            → IsApplied p command.now at result
            (seen_since has_failed seen may_leave stands_for self.old p self.new) };

    ghost settled_is: { (s : Self) (p : Package) → settled s p
        ↔ (seen s p × ((db : Database) → may_leave s db → stands_for db p)) };
}
