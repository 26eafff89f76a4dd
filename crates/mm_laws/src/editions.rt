//! Editions, their pieces, and publishing.

ghost use Rattle.std.specs.Prelude.{◌≡◌, ◌↔◌, ℕ, ℤ, ◌≤ℤ◌, pos, unsigned_abs, Some, None};
ghost use Rattle.mm_definitions.specs.Bounds.{Profile};
ghost use Rattle.mm_definitions.specs.Conditions.{piece_count};
ghost use Rattle.mm_definitions.specs.Keys.{Text};
ghost use Rattle.mm_definitions.specs.Package.{Package, PieceRow, open_state};
ghost use Rattle.mm_definitions.specs.Parts.{Has};
ghost use Rattle.mm_definitions.specs.Pieces.{piece_row, row_piece};
ghost use Rattle.mm_definitions.specs.Rules.{Meets};
ghost use Rattle.mm_definitions.specs.Step.{refusal, step};
ghost use Rattle.mm_definitions.specs.declared.commands.Command.TheVariants as commands;
ghost use Rattle.mm_definitions.specs.declared.commands.Piece.{Piece};
ghost use Rattle.mm_laws.specs.Laws.{FirstRefused, IsNewEdition, IsPublished};

/// A new edition is open and holds no pieces.
pub fn a_new_edition_is_open_and_holds_no_pieces()
    ensures { (profile : Profile) (p : Package) (name : Text) (moment : ℕ) → Meets profile p
        → refusal p (commands.Edition name) ≡ None
        → IsNewEdition name (step p (commands.Edition name) moment) }
{}

/// A row spells a piece exactly where it is the row in which that piece is kept, column for column.
pub fn a_row_spells_the_piece_that_it_keeps_and_no_other()
    ensures { (r : PieceRow) (q : Piece) → (row_piece r ≡ Some q) ↔ (r ≡ piece_row q) }
{}

/// Staging a piece again that stands already is accepted, and changes nothing.
pub fn an_equal_piece_staged_again_changes_nothing()
    ensures { (p : Package) (edition : Text) (number : ℤ) (q : Piece) (moment : ℕ)
        → refusal p (commands.Stage edition number q) ≡ None → number ≤ℤ pos (piece_count p edition)
        → step p (commands.Stage edition number q) moment ≡ p }
{}

/// Where publishing is accepted, every piece was done in turn, and the edition is published and holds no pieces.
pub fn an_accepted_publishing_closes_the_edition()
    ensures { (p : Package) (edition : Text) (moment : ℕ)
        → refusal p (commands.Publish edition) ≡ None
        → IsPublished p edition moment (step p (commands.Publish edition) moment) }
{}

/// Where a piece is refused on what those before it gave, publishing is refused with 53, its number and its refusal.
pub fn the_first_refused_piece_refuses_the_publishing()
    ensures { (p : Package) (edition : Text) (first : FirstRefused p edition)
        → Has p.editions edition open_state → refusal p (commands.Publish edition)
        ≡ Some (record {
          number = 53;
          piece = Some
              (unsigned_abs first.key.number, first.reason);
        }) }
{}

/// A rehearsal changes nothing, whatever it answers.
pub fn a_rehearsal_changes_nothing()
    ensures { (p : Package) (edition : Text) (moment : ℕ)
        → step p (commands.Rehearse edition) moment ≡ p }
{}

/// And it answers what publishing would.
pub fn a_rehearsal_answers_as_publishing()
    ensures { (p : Package) (edition : Text) → refusal p (commands.Rehearse edition)
        ≡ refusal p (commands.Publish edition) }
{}
