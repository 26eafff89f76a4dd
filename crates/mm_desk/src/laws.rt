//! What a head demands, and a desk's sitting list by list, as laws.

ghost use Rattle.std.specs.Prelude.{◌≡◌, ℕ, List, false};
ghost use Rattle.http1.specs.Fields.{Header};
ghost use Rattle.mm_definitions.specs.Keys.{Text};
ghost use Rattle.mm_definitions.specs.Package.{Package};
ghost use Rattle.mm_definitions.specs.Runs.{Call};
ghost use Rattle.mm_run.specs.Applied.{IsSound};
ghost use Rattle.mm_run.specs.Runs.{AreFirstParts};
ghost use Rattle.mm_run.specs.Sessions.{shown};
ghost use Rattle.mm_desk.specs.Demand.{Demand, IsDemand};
ghost use Rattle.mm_desk.specs.Sittings.{IsSitting, Sat, Visit};

use mm_run::Apply;

/// A head has one demand: no line of the table clashes with another.
pub fn one_demand()
    ensures { (port minor : ℕ) (front method target : Text) (fields : List Header) (d e : Demand)
        → IsDemand port front method target fields minor d
        → IsDemand port front method target fields minor e → d ≡ e }
{}

/// A sitting is one run of its lists, one behind another: where a session was settled for a package that meets the rules, then behind any
/// number of lists, with reads between them, each database that a crash may leave stands for a first part of all their accepted commands,
/// with each that was acknowledged; and that package meets the rules.
pub fn a_desk_is_one_run<A: Apply>(_old: &A, _new: &A)
    ensures { (p : Package) (visits : List Visit) → Sat A.Apply _old.now visits _new.now
        → A.is_clean _new.now → IsSound (A.settled _old.now) p → A.has_failed _old.now ≡ false
        → (calls : List Call) × (kept : ℕ) × IsSitting p visits calls kept
        × AreFirstParts (shown A.Apply _new.now) p calls kept }
{}
