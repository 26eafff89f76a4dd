//! The given reference systems.

ghost use Rattle.std.specs.Prelude.{◌↔◌, IsTrue};
ghost use Rattle.sqlite.specs.Order.{column};
ghost use Rattle.mm_definitions.specs.Rules.{GivenSystems, geographic, undefined_cartesian, undefined_geographic};
ghost use Rattle.mm_rules.specs.SystemRows.{IsGivenRow, shows_by};
ghost use Rattle.mm_walk.specs.Check.{Decides};

use mm_definitions::answers::Fault;
use mm_walk::columns::{number_is, text_is};
use mm_walk::row_tests::{RowTest, each_passes};
use sqlite::{Alter, Connection, Row, params};

/// Whether the columns of the system of geographic coordinates are as they were given.
fn is_geographic(row: &Row) -> bool
    ensures { IsTrue result ↔ shows_by geographic (column row.now 0) (column row.now 1)
        (column row.now 2) (column row.now 3) (column row.now 4) }
{
    text_is(row, Given::GEOGRAPHIC_NAME, "WGS 84 geographic")
        && text_is(row, Given::GEOGRAPHIC_ORGANIZATION, "EPSG")
        && number_is(row, Given::GEOGRAPHIC_NUMBER, 4326)
        && text_is(row, Given::GEOGRAPHIC_DEFINITION, "EPSG:4326")
        && text_is(row, Given::GEOGRAPHIC_DESCRIPTION, "longitude and latitude")
}

/// Whether those of the undefined Cartesian system are.
fn is_undefined_cartesian(row: &Row) -> bool
    ensures { IsTrue result ↔ shows_by undefined_cartesian (column row.now 5) (column row.now 6)
        (column row.now 7) (column row.now 8) (column row.now 9) }
{
    text_is(row, Given::CARTESIAN_NAME, "Undefined Cartesian")
        && text_is(row, Given::CARTESIAN_ORGANIZATION, "NONE")
        && number_is(row, Given::CARTESIAN_NUMBER, -1)
        && text_is(row, Given::CARTESIAN_DEFINITION, "undefined")
        && text_is(
            row,
            Given::CARTESIAN_DESCRIPTION,
            "undefined Cartesian coordinates",
        )
}

/// Whether those of the undefined geographic system are.
fn is_undefined_geographic(row: &Row) -> bool
    ensures { IsTrue result ↔ shows_by undefined_geographic (column row.now 10) (column row.now 11)
        (column row.now 12) (column row.now 13) (column row.now 14) }
{
    text_is(row, Given::UNDEFINED_NAME, "Undefined geographic")
        && text_is(row, Given::UNDEFINED_ORGANIZATION, "NONE")
        && number_is(row, Given::UNDEFINED_NUMBER, 0)
        && text_is(row, Given::UNDEFINED_DEFINITION, "undefined")
        && text_is(
            row,
            Given::UNDEFINED_DESCRIPTION,
            "undefined geographic coordinates",
        )
}

/// The columns of the three given systems, one after another.
struct Given;

impl Given {
    const GEOGRAPHIC_NAME: usize = 0;

    const GEOGRAPHIC_ORGANIZATION: usize = 1;

    const GEOGRAPHIC_NUMBER: usize = 2;

    const GEOGRAPHIC_DEFINITION: usize = 3;

    const GEOGRAPHIC_DESCRIPTION: usize = 4;

    const CARTESIAN_NAME: usize = 5;

    const CARTESIAN_ORGANIZATION: usize = 6;

    const CARTESIAN_NUMBER: usize = 7;

    const CARTESIAN_DEFINITION: usize = 8;

    const CARTESIAN_DESCRIPTION: usize = 9;

    const UNDEFINED_NAME: usize = 10;

    const UNDEFINED_ORGANIZATION: usize = 11;

    const UNDEFINED_NUMBER: usize = 12;

    const UNDEFINED_DEFINITION: usize = 13;

    const UNDEFINED_DESCRIPTION: usize = 14;
}

impl RowTest for Given {
    ghost good = { λ _ row. IsGivenRow row };

    fn passes(&self, row: &Row) -> bool {
        is_geographic(row) && is_undefined_cartesian(row) && is_undefined_geographic(row)
    }
}

/// Rule 1: the three given systems stand as they were given.
pub fn given_systems<S: Alter>(conn: &mut Connection<S>) -> Result<bool, Fault>
    ensures { Decides S.Store conn.old conn.new (λ p. GivenSystems p.systems) result }
{
    each_passes(
        conn,
        "SELECT a.srs_name, a.organization, a.organization_coordsys_id, a.definition, a.description, b.srs_name, b.organization, b.organization_coordsys_id, b.definition, b.description, c.srs_name, c.organization, c.organization_coordsys_id, c.definition, c.description FROM mm_profile AS v LEFT JOIN gpkg_spatial_ref_sys AS a ON a.srs_id = ?1 LEFT JOIN gpkg_spatial_ref_sys AS b ON b.srs_id = ?2 LEFT JOIN gpkg_spatial_ref_sys AS c ON c.srs_id = ?3",
        params![4326i64, -1i64, 0i64],
        &Given,
    )
}
