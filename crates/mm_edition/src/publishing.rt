//! Publishing an edition.

ghost use Rattle.std.specs.Prelude.{◌≡◌, true};
ghost use Rattle.std.specs.FinMap.{contains_key, insert, retain_keys};
ghost use Rattle.mm_definitions.specs.Editions.{closed};
ghost use Rattle.mm_definitions.specs.Effects.{is_other};
ghost use Rattle.mm_definitions.specs.Package.{published_state};
ghost use Rattle.mm_edition.specs.Turns.{TriesPieces, Publishes};
ghost use Rattle.mm_staging.specs.Alone.{FreedByPiecesAlone};
ghost use Rattle.mm_store.specs.Handed.{Changes, ChangesWhere};
ghost use Rattle.mm_blobs.specs.Handed.{Frees};

use crate::running::{Turn, try_piece};
use mm_blobs::blobs::release_each;
use mm_definitions::answers::{Fault, Outcome, Refusal};
use mm_definitions::limits::MOST_PIECES;
use mm_definitions::names::Name;
use mm_definitions::refusals::Reason;
use mm_staging::{blobs_of_pieces_alone, closed_refusal};
use mm_store::statements::run;
use sqlite::{Alter, Transaction, params};

/// No open edition has a piece of this number, so publishing comes to its end there at the latest.
const PAST_THE_LAST: u32 = MOST_PIECES + 1;

/// Does what the pieces of an edition say, in rising number, to the first that is refused, which is told with its
/// number and its refusal. One piece is held at a time, and no bytes. `last_change` is the stamp of the moment.
pub(crate) fn try_pieces<S: Alter>(
    tx: &mut Transaction<'_, S>,
    edition: &Name,
    last_change: &str,
) -> Result<Option<(u32, Reason)>, Fault>
    ensures { TriesPieces S.Store tx.old tx.new edition.now last_change.now result }
{
    for number in 1..PAST_THE_LAST + 1 {
        match try_piece(tx, edition, number, last_change)? {
            Turn::Done => {}
            Turn::End => return Ok(None),
            Turn::Refused(why) => return Ok(Some((number, why))),
        }
    }
    Err(Fault::STORE)
}

/// Writes that an edition is published.
fn mark_published<S: Alter>(tx: &mut Transaction<'_, S>, edition: &str) -> Result<(), Fault>
    ensures { ChangesWhere S.Store tx.old tx.new (λ p. contains_key p.editions edition.now ≡ true)
        (λ p. record p { editions = insert p.editions edition.now published_state }) result }
{
    run(
        tx,
        "UPDATE mm_editions SET state = 'published' WHERE name = ?1",
        params![edition],
    )
}

/// Removes the rows of the pieces of an edition. Blobs stay that nothing names any more.
fn delete_piece_rows<S: Alter>(tx: &mut Transaction<'_, S>, edition: &str) -> Result<(), Fault>
    ensures { Frees S.Store tx.old tx.new (FreedByPiecesAlone edition.now)
        (λ p. record p { pieces = retain_keys p.pieces (λ k. is_other edition.now k.edition) })
        result }
{
    run(
        tx,
        "DELETE FROM mm_pieces WHERE edition = ?1",
        params![edition],
    )
}

/// Removes the pieces of an edition, and the blobs that nothing names any more.
fn delete_pieces<S: Alter>(tx: &mut Transaction<'_, S>, edition: &str) -> Result<(), Fault>
    ensures { Changes S.Store tx.old tx.new
        (λ p. record p { pieces = retain_keys p.pieces (λ k. is_other edition.now k.edition) })
        result }
{
    let blobs = blobs_of_pieces_alone(tx, edition)?;
    delete_piece_rows(tx, edition)?;
    release_each(tx, blobs.as_slice())
}

/// Publishes an edition whose pieces were done, and removes them.
fn close_edition<S: Alter>(tx: &mut Transaction<'_, S>, edition: &str) -> Result<(), Fault>
    ensures { ChangesWhere S.Store tx.old tx.new (λ p. contains_key p.editions edition.now ≡ true)
        (closed edition.now) result }
{
    mark_published(tx, edition)?;
    delete_pieces(tx, edition)
}

/// The command `publish`: does all pieces of an open edition in rising number, each by its conditions on what the
/// earlier ones gave, and publishes the edition, which then holds no pieces. `last_change` is the stamp of the moment,
/// which becomes the last_change of each table that a piece changes. Refused 51 where no edition has the name, 55 where
/// it is published, and 53 with the number and the refusal of the first piece that is refused; the caller rolls the
/// transaction back then.
pub fn publish<S: Alter>(
    tx: &mut Transaction<'_, S>,
    edition: &Name,
    last_change: &str,
) -> Result<Outcome, Fault>
    ensures { Publishes S.Store tx.old tx.new edition.now last_change.now result }
{
    let name = edition.as_str();
    if let Some(number) = closed_refusal(tx, name)? {
        return Ok(Outcome::refused(number));
    }
    match try_pieces(tx, edition, last_change)? {
        None => {}
        Some(refused) => return Ok(Outcome::Refused(Refusal::of_piece(refused.0, refused.1))),
    }
    close_edition(tx, name)?;
    Ok(Outcome::Done)
}
