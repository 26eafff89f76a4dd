//! What holds of the definitions, as contracts.

ghost use Rattle.std.specs.Prelude.{◌≡◌};
ghost use Rattle.mm_store.specs.Tables.{schema};
ghost use Rattle.mm_store.specs.Made.{with_related, definitions, AllDefine};

/// Each CREATE text defines its table.
pub fn texts_define_tables()
    ensures { AllDefine definitions }
{}

/// The 15 tables and then the five indexes, made in turn in an empty database, are the schema: their trees are the ones that
/// the database gives them, beside those of the indexes of the tables' keys.
pub fn schema_is_made()
    ensures { with_related ≡ schema }
{}
