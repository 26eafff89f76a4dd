//! What every refusal has in common.

ghost use Rattle.std.specs.Prelude.{◌≡◌, Some};
ghost use Rattle.mm_definitions.specs.Editions.{edition_trial};
ghost use Rattle.mm_definitions.specs.Keys.{Text};
ghost use Rattle.mm_definitions.specs.Package.{Package};
ghost use Rattle.mm_definitions.specs.Step.{refusal, refusal_at, refused_piece};
ghost use Rattle.mm_definitions.specs.Refusals.{Refusal};
ghost use Rattle.mm_definitions.specs.declared.commands.Command.{Command};
ghost use Rattle.mm_laws.specs.Laws.{IsNumberedRefusal};

/// Whether and why a command is refused does not depend on the moment: every stamp tells the same.
pub fn a_refusal_needs_no_moment()
    ensures { (p : Package) (c : Command) (one other : Text)
        → refusal_at p c one ≡ refusal_at p c other }
{}

/// Publishing is refused at every stamp alike, at the same piece and for the same reason.
pub fn publishing_is_refused_at_every_stamp_alike()
    ensures { (p : Package) (edition one other : Text)
        → refused_piece (edition_trial p edition one)
        ≡ refused_piece (edition_trial p edition other) }
{}

/// Every refusal has a number of the table, and names a piece exactly where it is 53.
pub fn every_refusal_has_a_number_of_the_table()
    ensures { (p : Package) (c : Command) (r : Refusal) → refusal p c ≡ Some r
        → IsNumberedRefusal r }
{}
