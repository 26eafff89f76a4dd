//! The fields of a record, and what they spell.

ghost use Rattle.std.specs.Prelude.{◌≡◌, ◌⊎◌, ℕ, ℤ, List};
ghost use Rattle.mm_definitions.specs.Bounds.{Profile};
ghost use Rattle.mm_definitions.specs.Keys.{Text};
ghost use Rattle.mm_definitions.specs.Numbers as numbers;
ghost use Rattle.mm_definitions.specs.Records.{HoldsAgainst, HoldsAgainstPiece, IsLeast, Spells, SpellsPiece};
ghost use Rattle.mm_definitions.specs.declared.commands.Command.{Command};
ghost use Rattle.mm_definitions.specs.declared.commands.Piece.{Piece};
ghost use Rattle.mm_laws.specs.Laws.{IsReadingNumber};

/// The fields of every record spell a command, or some number is the least that is against them; so for pieces.
pub fn every_record_spells_a_command_or_has_a_least_number()
    ensures commands { (profile : Profile) (texts : List Text)
        → ((c : Command) × Spells profile texts c)
        ⊎ ((n : ℕ) × IsLeast (HoldsAgainst profile texts) n) }
    ensures pieces { (profile : Profile) (texts : List Text)
        → ((q : Piece) × SpellsPiece profile texts q)
        ⊎ ((n : ℕ) × IsLeast (HoldsAgainstPiece profile texts) n) }
{}

/// The fields of a record spell one command at most, and one piece at most.
pub fn fields_spell_one_command_at_most()
    ensures commands { (profile : Profile) (texts : List Text) (c d : Command)
        → Spells profile texts c → Spells profile texts d → c ≡ d }
    ensures pieces { (profile : Profile) (texts : List Text) (q r : Piece)
        → SpellsPiece profile texts q → SpellsPiece profile texts r → q ≡ r }
{}

/// No number is against fields that spell a command or a piece.
pub fn nothing_is_against_what_is_spelled()
    ensures commands { (profile : Profile) (texts : List Text) (c : Command) (n : ℕ)
        → Spells profile texts c → ¬ (HoldsAgainst profile texts n) }
    ensures pieces { (profile : Profile) (texts : List Text) (q : Piece) (n : ℕ)
        → SpellsPiece profile texts q → ¬ (HoldsAgainstPiece profile texts n) }
{}

/// One number is the least that is against the fields of a record.
pub fn the_least_number_is_one()
    ensures commands { (profile : Profile) (texts : List Text) (n m : ℕ)
        → IsLeast (HoldsAgainst profile texts) n → IsLeast (HoldsAgainst profile texts) m → n ≡ m }
    ensures pieces { (profile : Profile) (texts : List Text) (n m : ℕ)
        → IsLeast (HoldsAgainstPiece profile texts) n
        → IsLeast (HoldsAgainstPiece profile texts) m → n ≡ m }
{}

/// Each number against the fields of a record is 10, 11 or 12.
pub fn each_number_is_10_11_or_12()
    ensures commands { (profile : Profile) (texts : List Text) (n : ℕ)
        → HoldsAgainst profile texts n → IsReadingNumber n }
    ensures pieces { (profile : Profile) (texts : List Text) (n : ℕ)
        → HoldsAgainstPiece profile texts n → IsReadingNumber n }
{}

/// A text spells one number at most.
pub fn a_text_spells_one_number_at_most()
    ensures { (text : Text) (y z : ℤ) → numbers.SpellsNumber text y
        → numbers.SpellsNumber text z → y ≡ z }
{}
