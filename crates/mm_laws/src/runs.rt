//! Runs of commands, the accepted ones among them, and first parts.

ghost use Rattle.std.specs.Prelude.{◌≡◌, ◌⊎◌, ℕ, List, [], ◌∷◌, ◌++◌, ◌+◌, length, Some, None};
ghost use Rattle.mm_definitions.specs.Package.{Package, Contents};
ghost use Rattle.mm_definitions.specs.Keys.{Text};
ghost use Rattle.mm_definitions.specs.Parts.{Has};
ghost use Rattle.mm_definitions.specs.Stamp.{stamp};
ghost use Rattle.mm_definitions.specs.Runs.{Call, run, accepted, IsFirstPart};
ghost use Rattle.mm_definitions.specs.Step.{refusal, step};
ghost use Rattle.mm_definitions.specs.Refusals.{Refusal};
ghost use Rattle.mm_definitions.specs.declared.commands.Command.{Command};
ghost use Rattle.mm_laws.specs.Laws.{IsSetOrKept, sets_last_change};

/// A refused command leaves the package as it was.
pub fn a_refused_command_changes_nothing()
    ensures { (p : Package) (c : Command) (moment : ℕ) (r : Refusal) → refusal p c ≡ Some r
        → step p c moment ≡ p }
{}

/// The accepted commands alone give what the whole list gives.
pub fn the_accepted_commands_give_the_last_package()
    ensures { (p : Package) (calls : List Call) → run p (accepted p calls) ≡ run p calls }
{}

/// Whatever stops it, one command is done or it is not: no package lies between. Publishing is one command.
pub fn one_command_is_done_wholly_or_not_at_all()
    ensures { (p q : Package) (c : Call) (acknowledged : ℕ)
        → IsFirstPart p (c ∷ []) acknowledged q → (q ≡ p) ⊎ (q ≡ step p c.command c.moment) }
{}

/// The last package is a first part, all of it.
pub fn the_last_package_is_a_first_part()
    ensures { (p : Package) (calls : List Call)
        → IsFirstPart p calls (length (accepted p calls)) (run p calls) }
{}

/// Where the commands before were all acknowledged, a first part of the rest is a first part of the whole list.
pub fn a_first_part_of_the_rest_is_one_of_the_whole()
    ensures { (p q : Package) (before after : List Call) (acknowledged : ℕ)
        → IsFirstPart (run p before) after acknowledged q
        → IsFirstPart p (before ++ after) (length (accepted p before) + acknowledged) q }
{}

/// A first part stays one where more commands follow.
pub fn a_first_part_stays_one_where_more_follows()
    ensures { (p q : Package) (calls after : List Call) (acknowledged : ℕ)
        → IsFirstPart p calls acknowledged q → IsFirstPart p (calls ++ after) acknowledged q }
{}

/// After an accepted command the contents row of each table has the stamp of the moment where the command, or a piece
/// that it publishes, is one of the nine that set last_change and names the table, and is as it was everywhere else.
pub fn last_change_is_set_of_the_named_table_alone()
    ensures { (p : Package) (c : Command) (moment : ℕ) (table : Text) (row : Contents)
        → refusal p c ≡ None → Has (step p c moment).contents table row
        → IsSetOrKept (sets_last_change p c table) (stamp moment) p.contents table row }
{}
