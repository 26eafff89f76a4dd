//! What is printed is read back, as laws.

ghost use Rattle.std.specs.Prelude.{◌≡◌, ℤ, List, Some, map};
ghost use Rattle.std.specs.FinMap.{get};
ghost use Rattle.mm_definitions.specs.Bounds.{current};
ghost use Rattle.mm_definitions.specs.Keys.{Text, item};
ghost use Rattle.mm_definitions.specs.Package.{AttributeRow, Package};
ghost use Rattle.mm_definitions.specs.Records.{Spells};
ghost use Rattle.mm_definitions.specs.Rules.{Meets};
ghost use Rattle.mm_definitions.specs.declared.commands.Command.TheVariants.{Edit};
ghost use Rattle.mm_definitions.specs.declared.commands.Piece.TheVariants as pieces;
ghost use Rattle.mm_io.specs.Records.{records_of};
ghost use Rattle.mm_show.specs.Records.{row_fields, row_records};

/// The records of some rows are read as the records of each, in their order, whatever their texts hold: the run of a list that has
/// them reads these fields.
pub fn what_is_printed_is_read_back()
    ensures { (table : Text) (rows : List (ℤ × AttributeRow))
        → records_of (row_records table rows) ≡ map (row_fields table) rows }
{}

/// The fields of a record of a row that stands spell the command that writes it.
pub fn a_record_of_a_row_writes_it()
    ensures { (p : Package) (table : Text) (id : ℤ) (row : AttributeRow) → Meets current p
        → get p.rows (item table id) ≡ Some row
        → Spells current (row_fields table (id, row))
        (Edit (pieces.Row table id row.title row.note row.amount)) }
{}
