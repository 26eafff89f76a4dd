//! The rules of attribute rows, media, relations and mapping rows.

ghost use Rattle.std.specs.Prelude.{◌≡◌, ◌⊎◌, ◌↔◌, codes, Some, IsTrue};
ghost use Rattle.mm_definitions.specs.Rules.{Items, RelationsSuited, PairingsJoin};
ghost use Rattle.sqlite.specs.Order.{column};
ghost use Rattle.mm_walk.specs.Columns.{text_bytes};
ghost use Rattle.mm_rules.specs.Parts.{RowsInTables, MediaInTables};
ghost use Rattle.mm_rules.specs.ItemRows.{IsAttributesRow, IsMediaRow, IsSuitedRow, IsJoinedRow};
ghost use Rattle.mm_walk.specs.Check.{Decides};

use mm_definitions::answers::Fault;
use mm_walk::columns::{stands, text_is};
use mm_walk::row_tests::{RowTest, each_passes};
use sqlite::{Alter, Connection, Row};

/// An attribute row with the kind of its table.
struct OfAttributes;

impl OfAttributes {
    const KIND: usize = 0;
}

impl RowTest for OfAttributes {
    ghost good = { λ _ row. IsAttributesRow row };

    fn passes(&self, row: &Row) -> bool {
        text_is(row, Self::KIND, "attributes")
    }
}

/// Of rule 11, what it asks of attribute rows.
pub fn rows_in_tables<S: Alter>(conn: &mut Connection<S>) -> Result<bool, Fault>
    ensures { Decides S.Store conn.old conn.new (λ p. RowsInTables p) result }
{
    each_passes(
        conn,
        "SELECT k.kind FROM mm_rows AS r LEFT JOIN mm_tables AS k ON k.table_name = r.table_name ORDER BY r.table_name, r.id",
        &[],
        &OfAttributes,
    )
}

/// A medium with the kind of its table.
struct OfMedia;

impl OfMedia {
    const KIND: usize = 0;
}

impl RowTest for OfMedia {
    ghost good = { λ _ row. IsMediaRow row };

    fn passes(&self, row: &Row) -> bool {
        text_is(row, Self::KIND, "media")
    }
}

/// Of rule 11, what it asks of media.
pub fn media_in_tables<S: Alter>(conn: &mut Connection<S>) -> Result<bool, Fault>
    ensures { Decides S.Store conn.old conn.new (λ p. MediaInTables p) result }
{
    each_passes(
        conn,
        "SELECT k.kind FROM mm_media AS m LEFT JOIN mm_tables AS k ON k.table_name = m.table_name ORDER BY m.table_name, m.id",
        &[],
        &OfMedia,
    )
}

/// Rule 11: rows and media belong to tables of their kind.
pub fn items<S: Alter>(conn: &mut Connection<S>) -> Result<bool, Fault>
    ensures { Decides S.Store conn.old conn.new (λ p. Items p.kinds p.rows p.media) result }
{
    if rows_in_tables(conn)? {
        media_in_tables(conn)
    } else {
        Ok(false)
    }
}

/// Whether the kind of a relation's base is one that a base may have.
fn is_base(row: &Row) -> bool
    ensures { IsTrue result ↔ (text_bytes (column row.now 0) ≡ Some (codes "attributes"))
        ⊎ (text_bytes (column row.now 0) ≡ Some (codes "media")) }
{
    text_is(row, Suited::BASE_KIND, "attributes") || text_is(row, Suited::BASE_KIND, "media")
}

/// Whether the kind of the related table is the one that the relation's name asks for.
fn is_related(row: &Row) -> bool
    ensures { IsTrue result
        ↔ ((text_bytes (column row.now 4) ≡ Some (codes "media"))
        × (text_bytes (column row.now 1) ≡ Some (codes "media")))
        ⊎ ((text_bytes (column row.now 4) ≡ Some (codes "simple_attributes"))
        × (text_bytes (column row.now 1) ≡ Some (codes "attributes"))) }
{
    text_is(row, Suited::NAME, "media") && text_is(row, Suited::RELATED_KIND, "media")
        || text_is(row, Suited::NAME, "simple_attributes")
            && text_is(row, Suited::RELATED_KIND, "attributes")
}

/// A relation with the kinds of its ends.
struct Suited;

impl Suited {
    const BASE_KIND: usize = 0;

    const RELATED_KIND: usize = 1;

    const BASE_COLUMN: usize = 2;

    const RELATED_COLUMN: usize = 3;

    const NAME: usize = 4;
}

impl RowTest for Suited {
    ghost good = { λ _ row. IsSuitedRow row };

    fn passes(&self, row: &Row) -> bool {
        is_base(row)
            && is_related(row)
            && text_is(row, Self::BASE_COLUMN, "id")
            && text_is(row, Self::RELATED_COLUMN, "id")
    }
}

/// Rule 12: relations join tables of the kinds that their names ask for.
pub fn relations_suited<S: Alter>(conn: &mut Connection<S>) -> Result<bool, Fault>
    ensures { Decides S.Store conn.old conn.new (λ p. RelationsSuited p.kinds p.relations) result }
{
    each_passes(
        conn,
        "SELECT b.kind, c.kind, r.base_primary_column, r.related_primary_column, r.relation_name FROM gpkgext_relations AS r LEFT JOIN mm_tables AS b ON b.table_name = r.base_table_name LEFT JOIN mm_tables AS c ON c.table_name = r.related_table_name ORDER BY r.mapping_table_name",
        &[],
        &Suited,
    )
}

/// A mapping row with its relation, and with what stands at both ends.
struct Joined;

impl Joined {
    const RELATION: usize = 0;

    const BASE_ROW: usize = 1;

    const BASE_MEDIUM: usize = 2;

    const RELATED_ROW: usize = 3;

    const RELATED_MEDIUM: usize = 4;
}

impl RowTest for Joined {
    ghost good = { λ _ row. IsJoinedRow row };

    fn passes(&self, row: &Row) -> bool {
        stands(row, Self::RELATION)
            && (stands(row, Self::BASE_ROW) || stands(row, Self::BASE_MEDIUM))
            && (stands(row, Self::RELATED_ROW) || stands(row, Self::RELATED_MEDIUM))
    }
}

/// Rule 13: each mapping row names a relation, and both its ends stand.
pub fn pairings_join<S: Alter>(conn: &mut Connection<S>) -> Result<bool, Fault>
    ensures { Decides S.Store conn.old conn.new
        (λ p. PairingsJoin p.rows p.media p.relations p.pairings) result }
{
    each_passes(
        conn,
        "SELECT r.mapping_table_name, a.id, b.id, c.id, d.id FROM mm_map AS m LEFT JOIN gpkgext_relations AS r ON r.mapping_table_name = m.mapping LEFT JOIN mm_rows AS a ON a.table_name = r.base_table_name AND a.id = m.base_id LEFT JOIN mm_media AS b ON b.table_name = r.base_table_name AND b.id = m.base_id LEFT JOIN mm_rows AS c ON c.table_name = r.related_table_name AND c.id = m.related_id LEFT JOIN mm_media AS d ON d.table_name = r.related_table_name AND d.id = m.related_id ORDER BY m.mapping, m.base_id, m.related_id",
        &[],
        &Joined,
    )
}
