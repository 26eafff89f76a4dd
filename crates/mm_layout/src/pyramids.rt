//! Tile pyramids.

ghost use Rattle.std.specs.Prelude.{◌≡◌, None, IfOk};
ghost use Rattle.std.specs.FinMap.{get, insert};
ghost use Rattle.std.specs.Result.{result_err};
ghost use Rattle.mm_definitions.specs.Conditions.{least, own_reasons};
ghost use Rattle.mm_definitions.specs.Effects.{with_pyramid};
ghost use Rattle.mm_definitions.specs.declared.commands.Command.TheVariants as commands;
ghost use Rattle.mm_layout.specs.Rows.{pyramid_contents, IsUnregistered};
ghost use Rattle.mm_store.specs.Handed.{Looks, ChangesWhere};
ghost use Rattle.mm_layout.specs.Handed.{Lends};

use crate::contents::{has_identifier, is_taken};
use crate::extensions::insert_zoom_row;
use crate::kinds::{insert_kind, text_of_step};
use crate::systems::is_geographic;
use mm_definitions::answers::{Fault, Outcome};
use mm_definitions::commands::Step;
use mm_definitions::extents::{Bounds, Extent};
use mm_definitions::names::Name;
use mm_definitions::refusals::Reason;
use mm_store::statements::run;
use mm_store::systems::has_system;
use sqlite::{Alter, Transaction, params};

/// Puts the contents row of a new pyramid.
fn insert_pyramid_contents<S: Alter>(
    tx: &mut Transaction<'_, S>,
    table: &str,
    identifier: &str,
    srs: i64,
    extent: &Extent,
    last_change: &str,
) -> Result<(), Fault>
    ensures { ChangesWhere S.Store tx.old tx.new (λ p. get p.contents table.now ≡ None)
        (λ p. record p {
          contents = insert p.contents table.now
              (pyramid_contents identifier.now last_change.now srs extent.now);
        }) result }
{
    run(
        tx,
        "INSERT INTO gpkg_contents (table_name, data_type, identifier, description, last_change, min_x, min_y, max_x, max_y, srs_id) VALUES (?1, 'tiles', ?2, '', ?3, ?4, ?5, ?6, ?7, ?8)",
        params![
            table,
            identifier,
            last_change,
            extent.min_x(),
            extent.min_y(),
            extent.max_x(),
            extent.max_y(),
            srs
        ],
    )
}

/// Puts the matrix set of a new pyramid.
fn insert_matrix_set<S: Alter>(
    tx: &mut Transaction<'_, S>,
    table: &str,
    srs: i64,
    extent: &Extent,
) -> Result<(), Fault>
    ensures { ChangesWhere S.Store tx.old tx.new (λ p. get p.sets table.now ≡ None)
        (λ p. record p {
          sets = insert p.sets table.now
              (record { system = srs; box = extent.now });
        }) result }
{
    run(
        tx,
        "INSERT INTO gpkg_tile_matrix_set (table_name, srs_id, min_x, min_y, max_x, max_y) VALUES (?1, ?2, ?3, ?4, ?5, ?6)",
        params![
            table,
            srs,
            extent.min_x(),
            extent.min_y(),
            extent.max_x(),
            extent.max_y()
        ],
    )
}

/// Puts all that stands of a new pyramid but its extension row.
fn insert_pyramid<S: Alter>(
    tx: &mut Transaction<'_, S>,
    table: &str,
    identifier: &str,
    srs: i64,
    extent: &Extent,
    step: Step,
    last_change: &str,
) -> Result<(), Fault>
    ensures { ChangesWhere S.Store tx.old tx.new (IsUnregistered table.now)
        (λ p. with_pyramid p table.now identifier.now srs extent.now step last_change.now)
        result }
{
    insert_pyramid_contents(tx, table, identifier, srs, extent, last_change)?;
    insert_kind(tx, table, text_of_step(step))?;
    insert_matrix_set(tx, table, srs, extent)
}

/// The extent of a pyramid that is added, or why none is.
fn extent_or_refusal<S: Alter>(
    tx: &mut Transaction<'_, S>,
    table: &str,
    identifier: &str,
    srs: i64,
    bounds: &Bounds,
) -> Result<Result<Extent, Reason>, Fault>
    ensures extent { IfOk result (λ told. IfOk told (λ extent. extent ≡ record {
      min_x = bounds.now.min_x;
      min_y = bounds.now.min_y;
      max_x = bounds.now.max_x;
      max_y = bounds.now.max_y;
    })) }
    ensures refusal { Looks S.Store tx.old tx.new (λ p told. (step : Step) → result_err told ≡ least
        (own_reasons p (commands.Pyramid table.now identifier.now srs bounds.now.min_x
        bounds.now.min_y bounds.now.max_x bounds.now.max_y step))) result }
{
    if !has_system(tx, srs)? {
        return Ok(Err(Reason::NO_SYSTEM));
    }
    if is_geographic(srs) {
        return Ok(Err(Reason::GEOGRAPHIC_SYSTEM));
    }
    if is_taken(tx, table)? {
        return Ok(Err(Reason::TABLE_NAME_TAKEN));
    }
    if has_identifier(tx, identifier)? {
        return Ok(Err(Reason::IDENTIFIER_TAKEN));
    }
    match bounds.extent() {
        Some(extent) => Ok(Ok(extent)),
        None => Ok(Err(Reason::EMPTY_EXTENT)),
    }
}

/// The command `pyramid`: adds a tile pyramid with its extent, in whole micrometres of its reference system.
/// `last_change` is the stamp of the moment, which becomes its last_change. Refused 21 where no system has the number
/// `srs`, 22 where that system is geographic, 23 where a table or mapping has the name, 24 where a table has the
/// identifier, 27 where nothing is between the bounds. (Tile Matrix Set; Zoom Other Intervals.)
pub fn add_pyramid<S: Alter>(
    tx: &mut Transaction<'_, S>,
    table: &Name,
    identifier: &str,
    srs: i64,
    bounds: &Bounds,
    step: Step,
    last_change: &str,
) -> Result<Outcome, Fault>
    ensures { Lends S.Store tx.old tx.new (commands.Pyramid table.now identifier.now srs
        bounds.now.min_x bounds.now.min_y bounds.now.max_x bounds.now.max_y step)
        last_change.now result }
{
    let table = table.as_str();
    let extent = match extent_or_refusal(tx, table, identifier, srs, bounds)? {
        Ok(extent) => extent,
        Err(reason) => return Ok(Outcome::refused(reason)),
    };
    insert_pyramid(tx, table, identifier, srs, &extent, step, last_change)?;
    match step {
        Step::Two => Ok(Outcome::Done),
        Step::Other => {
            insert_zoom_row(tx, table)?;
            Ok(Outcome::Done)
        }
    }
}
