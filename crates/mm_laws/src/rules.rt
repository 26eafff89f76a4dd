//! Every command keeps the sixteen rules.

ghost use Rattle.std.specs.Prelude.{ℕ, List};
ghost use Rattle.mm_definitions.specs.Bounds.{Profile, IsMoment};
ghost use Rattle.mm_definitions.specs.Opening.{opening};
ghost use Rattle.mm_definitions.specs.Package.{Package};
ghost use Rattle.mm_definitions.specs.Rules.{Meets};
ghost use Rattle.mm_definitions.specs.Runs.{Call, run, IsFirstPart};
ghost use Rattle.mm_definitions.specs.Step.{step};
ghost use Rattle.mm_definitions.specs.Within.{IsWithin};
ghost use Rattle.mm_definitions.specs.declared.commands.Command.{Command};
ghost use Rattle.mm_laws.specs.Laws.{AllWithin};

/// The package of a new file meets the rules.
pub fn the_opening_package_meets_the_rules()
    ensures { (profile : Profile) → Meets profile opening }
{}

/// A step keeps the rules: each of the twenty commands, at each moment, refused or accepted.
pub fn every_command_keeps_the_rules()
    ensures { (profile : Profile) (p : Package) (c : Command) (moment : ℕ)
        → Meets profile p → IsWithin profile c → IsMoment moment → Meets profile (step p c moment) }
{}

/// A run of any length keeps the rules.
pub fn every_run_keeps_the_rules()
    ensures { (profile : Profile) (p : Package) (calls : List Call)
        → Meets profile p → AllWithin profile calls → Meets profile (run p calls) }
{}

/// So does what is found after a stop, however many of the accepted commands it holds.
pub fn every_first_part_keeps_the_rules()
    ensures { (profile : Profile) (p q : Package) (calls : List Call) (acknowledged : ℕ)
        → Meets profile p → AllWithin profile calls → IsFirstPart p calls acknowledged q
        → Meets profile q }
{}
