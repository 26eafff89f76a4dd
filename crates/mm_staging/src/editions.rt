//! How an edition stands, and the commands that open and discard one.

ghost use Rattle.std.specs.Prelude.{◌≡◌, None, IfSome, option_map, string_bytes};
ghost use Rattle.std.specs.FinMap.{get, insert};
ghost use Rattle.mm_definitions.specs.Conditions.{least, own_reasons};
ghost use Rattle.mm_definitions.specs.Package.{open_state};
ghost use Rattle.mm_definitions.specs.declared.commands.Command.TheVariants as commands;
ghost use Rattle.mm_store.specs.Removals.{without_edition_rows, FreedByEdition};
ghost use Rattle.mm_staging.specs.Standings.{standing_text};
ghost use Rattle.mm_store.specs.Handed.{Looks, Tells, Changes, ChangesWhere, Applies};
ghost use Rattle.mm_blobs.specs.Handed.{Frees};

use crate::pieces::blobs_of_pieces;
use mm_blobs::blobs::release_each;
use mm_definitions::answers::{Fault, Outcome};
use mm_definitions::names::Name;
use mm_definitions::refusals::Reason;
use mm_store::statements::{first_text, run};
use sqlite::{Alter, Transaction, params};

/// How an edition stands.
#[derive(Clone, Copy, Debug, PartialEq, Eq)]
pub(crate) enum Standing {
    Open,
    Published,
}

/// The standing that a row writes so.
fn standing_named(text: &str) -> Option<Standing>
    ensures { IfSome result (λ standing. text.now ≡ standing_text standing) }
{
    match text {
        "open" => Some(Standing::Open),
        "published" => Some(Standing::Published),
        _ => None,
    }
}

/// What the row of an edition writes of how it stands.
fn written_state<S: Alter>(
    tx: &mut Transaction<'_, S>,
    edition: &str,
) -> Result<Option<String>, Fault>
    ensures { Looks S.Store tx.old tx.new (λ p text. get p.editions edition.now ≡ option_map
        string_bytes text) result }
{
    first_text(
        tx,
        "SELECT state FROM mm_editions WHERE name = ?1 LIMIT 1",
        params![edition],
    )
}

/// How an edition stands, if there is one of the name. A text that is no standing is a fault, 91.
pub(crate) fn standing_of<S: Alter>(
    tx: &mut Transaction<'_, S>,
    edition: &str,
) -> Result<Option<Standing>, Fault>
    ensures { Looks S.Store tx.old tx.new (λ p standing. get p.editions edition.now ≡ option_map
        standing_text standing) result }
{
    match written_state(tx, edition)? {
        Some(text) => match standing_named(text.as_str()) {
            Some(standing) => Ok(Some(standing)),
            None => Err(Fault::STORE),
        },
        None => Ok(None),
    }
}

/// Puts an open edition, where none has the name.
fn insert_edition<S: Alter>(tx: &mut Transaction<'_, S>, edition: &str) -> Result<(), Fault>
    ensures { ChangesWhere S.Store tx.old tx.new (λ p. get p.editions edition.now ≡ None)
        (λ p. record p { editions = insert p.editions edition.now open_state }) result }
{
    run(
        tx,
        "INSERT INTO mm_editions (name, state) VALUES (?1, 'open')",
        params![edition],
    )
}

/// The command `edition`: opens an edition without pieces. Refused 50 where one has the name, open or published.
pub fn open_edition<S: Alter>(tx: &mut Transaction<'_, S>, edition: &Name) -> Result<Outcome, Fault>
    ensures { Applies S.Store tx.old tx.new (commands.Edition edition.now) result }
{
    let edition = edition.as_str();
    match standing_of(tx, edition)? {
        None => {}
        Some(_) => return Ok(Outcome::refused(Reason::EDITION_EXISTS)),
    }
    insert_edition(tx, edition)?;
    Ok(Outcome::Done)
}

/// Removes the row of an edition, and by its key those of its pieces. Blobs stay that nothing names any more.
fn delete_edition_rows<S: Alter>(tx: &mut Transaction<'_, S>, edition: &str) -> Result<(), Fault>
    ensures { Frees S.Store tx.old tx.new (FreedByEdition edition.now) (without_edition_rows edition.now) result }
{
    run(
        tx,
        "DELETE FROM mm_editions WHERE name = ?1",
        params![edition],
    )
}

/// Removes an edition with its pieces, and the blobs that nothing names any more.
fn delete_edition<S: Alter>(tx: &mut Transaction<'_, S>, edition: &str) -> Result<(), Fault>
    ensures { Changes S.Store tx.old tx.new (without_edition_rows edition.now) result }
{
    let blobs = blobs_of_pieces(tx, edition)?;
    delete_edition_rows(tx, edition)?;
    release_each(tx, blobs.as_slice())
}

/// Why an edition is not one that takes and gives up pieces, if it is not: 51 where none has the name, 55 where it is
/// published.
pub fn closed_refusal<S: Alter>(
    tx: &mut Transaction<'_, S>,
    edition: &str,
) -> Result<Option<Reason>, Fault>
    ensures { Tells S.Store tx.old tx.new (λ p. least
        (own_reasons p (commands.Discard edition.now))) result }
{
    match standing_of(tx, edition)? {
        Some(Standing::Open) => Ok(None),
        Some(Standing::Published) => Ok(Some(Reason::PUBLISHED_ALREADY)),
        None => Ok(Some(Reason::NO_EDITION)),
    }
}

/// The command `discard`: removes an open edition and its pieces. Refused 51 where no edition has the name, 55 where it is
/// published.
pub fn discard<S: Alter>(tx: &mut Transaction<'_, S>, edition: &Name) -> Result<Outcome, Fault>
    ensures { Applies S.Store tx.old tx.new (commands.Discard edition.now) result }
{
    let edition = edition.as_str();
    if let Some(number) = closed_refusal(tx, edition)? {
        return Ok(Outcome::refused(number));
    }
    delete_edition(tx, edition)?;
    Ok(Outcome::Done)
}
