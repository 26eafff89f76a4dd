//! Spatial reference systems.

ghost use Rattle.std.specs.Prelude.{◌≡◌, None};
ghost use Rattle.std.specs.FinMap.{get, insert};
ghost use Rattle.mm_definitions.specs.declared.commands.Command.TheVariants as commands;
ghost use Rattle.mm_store.specs.Handed.{ChangesWhere, Applies};

use mm_definitions::answers::{Fault, Outcome};
use mm_definitions::refusals::Reason;
use mm_store::statements::run;
use mm_store::systems::has_system;
use sqlite::{Alter, Transaction, params};

/// Puts a system whose number is free.
pub(crate) fn insert_system<S: Alter>(
    tx: &mut Transaction<'_, S>,
    id: i64,
    name: &str,
    organization: &str,
    organization_id: i64,
    definition: &str,
    description: &str,
) -> Result<(), Fault>
    ensures { ChangesWhere S.Store tx.old tx.new (λ p. get p.systems id ≡ None)
        (λ p. record p {
          systems = insert p.systems id
              (record {
                name = name.now;
                organization = organization.now;
                organization_id =
                    organization_id;
                definition = definition.now;
                description = description.now;
              });
        }) result }
{
    run(
        tx,
        "INSERT INTO gpkg_spatial_ref_sys (srs_name, srs_id, organization, organization_coordsys_id, definition, description) VALUES (?1, ?2, ?3, ?4, ?5, ?6)",
        params![
            name,
            id,
            organization,
            organization_id,
            definition,
            description
        ],
    )
}

/// The command `srs`: adds a reference system. Refused 20 where a system has the number.
pub fn add_srs<S: Alter>(
    tx: &mut Transaction<'_, S>,
    id: i64,
    name: &str,
    organization: &str,
    organization_id: i64,
    definition: &str,
    description: &str,
) -> Result<Outcome, Fault>
    ensures { Applies S.Store tx.old tx.new
        (commands.Srs id name.now organization.now organization_id definition.now description.now)
        result }
{
    if has_system(tx, id)? {
        return Ok(Outcome::refused(Reason::SYSTEM_EXISTS));
    }
    insert_system(
        tx,
        id,
        name,
        organization,
        organization_id,
        definition,
        description,
    )?;
    Ok(Outcome::Done)
}
