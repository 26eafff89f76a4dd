//! What imports come to, for whoever relies on them. No function here does anything: the contract of each is a law.

ghost use Rattle.std.specs.Prelude.{◌≡◌, ℕ, Err, List, Result};
ghost use Rattle.mm_definitions.specs.Editions.{edition_trial, trial};
ghost use Rattle.mm_definitions.specs.Keys.{Text};
ghost use Rattle.mm_definitions.specs.Package.{Package};
ghost use Rattle.mm_definitions.specs.Step.{step};
ghost use Rattle.mm_definitions.specs.declared.commands.Command.TheVariants as commands;
ghost use Rattle.mm_definitions.specs.declared.commands.Piece.{Piece};
ghost use Rattle.mm_kit.specs.Editions.{HasPieces, rows_from};
ghost use Rattle.mm_kit.specs.Folders.{Files};
ghost use Rattle.mm_kit.specs.Kits.{kit_of};
ghost use Rattle.mm_kit.specs.Lists.{IsKitList};
ghost use Rattle.mm_kit.specs.declared.entries.KitEntry.{KitEntry};
ghost use Rattle.mm_kit.specs.Imports.{AreRepeats, IsFirstOf, OnlyGrows, SameBut};

/// Pieces that are a first part of the kit stay one, and no shorter.
pub fn a_first_part_stays_one_and_no_shorter()
    ensures { (name : Text) (kit : List Piece) (p q : Package) (old : List Piece)
        → OnlyGrows name kit p q → HasPieces p name old → IsFirstOf old kit → (new : List Piece)
        × HasPieces q name new × IsFirstOf old new × IsFirstOf new kit }
{}

/// Where they are no first part of the kit nothing changes.
pub fn other_pieces_stay()
    ensures { (name : Text) (kit : List Piece) (p q : Package) (old : List Piece)
        → OnlyGrows name kit p q → HasPieces p name old → ¬ (IsFirstOf old kit) → q ≡ p }
{}

/// Nor does anything where the edition isn't open.
pub fn an_edition_that_is_not_open_stays()
    ensures { (name : Text) (kit : List Piece) (p q : Package) → OnlyGrows name kit p q →
        ((old : List Piece) → ¬ (HasPieces p name old)) → q ≡ p }
{}

/// Nor where the list is no kit.
pub fn a_list_that_is_no_kit_changes_nothing()
    ensures { (files : Files) (at : ℕ × ℕ) (name : Text) (p q : Package)
        → OnlyGrows name (kit_of files (Err at)) p q → q ≡ p }
{}

/// Nothing but the pieces of the edition changes, however often an import is begun.
pub fn nothing_but_the_edition_changes()
    ensures { (name : Text) (kit : List Piece) (p q : Package) (stops : List Package)
        → AreRepeats name kit p stops q → SameBut name p q }
{}

/// After any number of stops and repeats that end with the kit's pieces in the edition, publishing tries the kit's pieces, in
/// their order, on the package that stands then.
pub fn publishing_after_repeats_publishes_the_kit()
    ensures { (name : Text) (kit : List Piece) (p q : Package) (stops : List Package) (stamp : Text)
        → AreRepeats name kit p stops q → HasPieces q name kit → SameBut name p q
        × (edition_trial q name stamp ≡ trial (rows_from name 1 kit) q stamp) }
{}

/// The stops make no difference: by whatever stops and repeats the edition comes to the kit's pieces, and so without any, the
/// package is the same, and so is the one that publishing gives.
pub fn the_stops_make_no_difference()
    ensures { (name : Text) (kit : List Piece) (p q r : Package) (stops others : List Package)
        (moment : ℕ) → AreRepeats name kit p stops q → AreRepeats name kit p others r
        → HasPieces q name kit → HasPieces r name kit → (q ≡ r)
        × (step q (commands.Publish name) moment ≡ step r (commands.Publish name) moment) }
{}

/// A folder has one list: its entries, or the first record that is refused.
pub fn a_folder_has_one_list()
    ensures { (files : Files) (a b : Result (List KitEntry) (ℕ × ℕ)) → IsKitList files a
        → IsKitList files b → a ≡ b }
{}
