//! From one run of the program to the next, as laws: what is left of a file by one is what the next is opened on.

ghost use Rattle.std.specs.Prelude.{◌≡◌, ℕ, List, Option, Result, IfErr, Ok, ⊤};
ghost use Rattle.sqlite.specs.Tree.{Trees};
ghost use Rattle.sqlite.specs.Recovery.{Image};
ghost use Rattle.sqlite.specs.Files.{HoldsDatabase};
ghost use Rattle.sqlite.specs.WalFiles.{outcomes};
ghost use Rattle.sqlite.specs.WalReads.{AreClean};
ghost use Rattle.mm_definitions.specs.Bounds.{current};
ghost use Rattle.mm_definitions.specs.Keys.{Text};
ghost use Rattle.mm_definitions.specs.Opening.{opening};
ghost use Rattle.mm_definitions.specs.Package.{Package};
ghost use Rattle.mm_definitions.specs.Rules.{Meets};
ghost use Rattle.mm_definitions.specs.Streams.{Written};
ghost use Rattle.mm_core.specs.Applied.{StandsForCurrent};
ghost use Rattle.mm_work.specs.Told.{stop_status};
ghost use Rattle.mm_work.specs.declared.stop.Stop.{Stop as Why};
ghost use Rattle.mm_program.specs.Files.{OnOpened, WereBare};
ghost use Rattle.mm_program.specs.Left.{LeavesMade, LeavesSame, TellsChecked};
ghost use Rattle.mm_program.specs.Life.{IsLife, LivesOn, Use};
ghost use Rattle.mm_program.specs.Told.{TellsWords};
ghost use Rattle.mm_program.specs.Uses.{LedOn, MayBeLeft};
ghost use Rattle.mm_program.specs.Worked.{closes_done};

use mm_files::{Left, Opened};
use sqlite_disk::Disk;

/// What a use of the program leaves of the files that it worked on, closed or not, leads on as it is told: from what they
/// held to each thing that a crash, or none, may leave of them.
pub fn a_use_leads_on<'a, D: Disk, S>(_left: &Left<'a, D, S>)
    ensures { (image next : Image) (source : Option (List ℕ)) (words : List Text)
        (old new : Written) (result : ℕ)
        → TellsWords D.Disk image source words old new result _left.now
        → MayBeLeft D.Disk _left.now next
        → LedOn source image next old new result words }
{}

/// The headline over the life of a file: where it held a package that meets the rules, then behind any number of uses
/// and crashes it holds the one that is made of it by a first part of the accepted commands of each list, in turn, with
/// every command that was acknowledged, and of all the lists of a desk; an import changes the pieces of its edition
/// alone, and drops none, and a migration changes nothing.
pub fn a_life_keeps_what_was_acknowledged()
    ensures { (image next : Image) (uses : List Use) → IsLife image uses next
        → (db : Trees) (p : Package) → HoldsDatabase image db → StandsForCurrent db p
        → Meets current p → ∥ LivesOn next p uses ∥₁ }
{}

/// So behind `init`.
pub fn a_life_begins_with_the_new_package<'a, D: Disk>(_opened: &Opened<'a, D>)
    ensures { (image first next : Image) (path : Text) (uses : List Use)
        → WereBare D.Disk image _opened.now
        → OnOpened D.Disk image path (λ found done. ⊤) LeavesMade closes_done (Ok tt)
        _opened.now
        → AreClean D.Disk _opened.now.files.log _opened.now.files.db
        → outcomes D.Disk _opened.now.files.log _opened.now.files.db first
        → IsLife first uses next → ∥ LivesOn next opening uses ∥₁ }
{}

/// A file that has lived on is told `package ok` by the check, or a fault, and never that it is no package or breaks a
/// rule.
pub fn what_lives_on_is_told_ok<'a, D: Disk>(_opened: &Opened<'a, D>)
    ensures { (image : Image) (path : Text) (p : Package) (uses : List Use)
        (done : Result (Unit {0}) Why) → ∥ LivesOn image p uses ∥₁
        → OnOpened D.Disk image path TellsChecked (λ found after it. LeavesSame found after)
        closes_done done _opened.now
        → AreClean D.Disk _opened.now.files.log _opened.now.files.db
        → IfErr done (λ why. stop_status why ≡ 3) }
{}
