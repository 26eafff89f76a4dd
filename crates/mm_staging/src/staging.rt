//! The command that stages a piece.

ghost use Rattle.std.specs.Prelude.{◌≡◌, ◌<ℤ◌, ◌-ℤ◌, pos};
ghost use Rattle.mm_definitions.specs.Bounds.{IsId};
ghost use Rattle.mm_definitions.specs.Pieces.{piece_row};
ghost use Rattle.mm_definitions.specs.declared.commands.Command.TheVariants as commands;
ghost use Rattle.mm_definitions.specs.declared.commands.Piece.{Piece as SpecPiece};
ghost use Rattle.mm_staging.specs.Kept.{kept_row, written_row};
ghost use Rattle.mm_staging.specs.Places.{IsPlace, IsPlaceAt, IsPlaceBehind, IsRoom, TellsBehind};
ghost use Rattle.mm_store.specs.Handed.{Looks, Applies, LooksByRules};

use crate::editions::{Standing, standing_of};
use crate::kept::{Kept, Written, as_written, is_written};
use crate::pieces::{has_piece, insert_piece, kept_piece};
use mm_definitions::answers::{Fault, Outcome};
use mm_definitions::bounded::Id;
use mm_definitions::commands::Piece;
use mm_definitions::limits::MOST_PIECES;
use mm_definitions::names::Name;
use mm_definitions::refusals::Reason;
use sqlite::{Alter, Transaction};

/// What staging a piece under a number comes to.
pub(crate) enum Place {
    /// An equal piece stands there already.
    Equal,
    /// It is the next number.
    Next,
    Refused(Reason),
}

/// What the next number comes to: it is free, or it is one too many.
fn next_place(number: i64) -> Place
    ensures { IsRoom number result }
{
    if number > MOST_PIECES as i64 {
        Place::Refused(Reason::TOO_MANY_PIECES)
    } else {
        Place::Next
    }
}

/// The number before one that is not the first.
fn number_before(number: i64) -> i64
    ensures { pos 1 <ℤ number → result ≡ number -ℤ pos 1 }
{
    if number > 1 { number - 1 } else { 0 }
}

/// Whether a number is the first, or behind that of a piece of the edition.
fn is_behind<S: Alter>(
    tx: &mut Transaction<'_, S>,
    edition: &str,
    number: i64,
) -> Result<bool, Fault>
    ensures { Looks S.Store tx.old tx.new (λ p behind. TellsBehind p edition.now number behind)
        result }
{
    let found = has_piece(tx, edition, number_before(number))?;
    if found {
        return Ok(true);
    }
    Ok(number <= 1)
}

/// What staging under a number comes to where the edition has no piece of that number.
fn place_behind<S: Alter>(
    tx: &mut Transaction<'_, S>,
    edition: &str,
    number: i64,
) -> Result<Place, Fault>
    ensures { Looks S.Store tx.old tx.new (λ p place. IsPlaceBehind p edition.now number place)
        result }
{
    if is_behind(tx, edition, number)? {
        Ok(next_place(number))
    } else {
        Ok(Place::Refused(Reason::NOT_THE_NEXT_PIECE))
    }
}

/// What staging under a number comes to at which a piece stands.
fn place_at(kept: &Kept, written: Written<'_>) -> Place
    ensures { IsPlaceAt (written_row written.entry) (kept_row kept.now) result }
{
    if is_written(kept, written) {
        Place::Equal
    } else {
        Place::Refused(Reason::NOT_THE_NEXT_PIECE)
    }
}

/// What staging a piece under a number of an edition comes to.
fn place_of<S: Alter>(
    tx: &mut Transaction<'_, S>,
    edition: &str,
    number: i64,
    written: Written<'_>,
) -> Result<Place, Fault>
    ensures { LooksByRules S.Store tx.old tx.new (λ p place. IsId number → (q : SpecPiece)
        → written_row written.entry ≡ piece_row q → IsPlace p edition.now number q place) result }
{
    match standing_of(tx, edition)? {
        Some(Standing::Open) => {}
        Some(Standing::Published) => return Ok(Place::Refused(Reason::PUBLISHED_ALREADY)),
        None => return Ok(Place::Refused(Reason::NO_EDITION)),
    }
    match kept_piece(tx, edition, number)? {
        Some(kept) => Ok(place_at(&kept, written)),
        None => place_behind(tx, edition, number),
    }
}

/// Keeps a piece under a number of an edition.
fn stage_at<S: Alter>(
    tx: &mut Transaction<'_, S>,
    edition: &str,
    number: i64,
    piece: &Piece,
) -> Result<Outcome, Fault>
    requires { IsId number }
    ensures { Applies S.Store tx.old tx.new (commands.Stage edition.now number piece.now) result }
{
    let written = as_written(piece);
    match place_of(tx, edition, number, written)? {
        Place::Next => {}
        Place::Equal => return Ok(Outcome::Done),
        Place::Refused(number) => return Ok(Outcome::refused(number)),
    }
    insert_piece(tx, edition, number, written)?;
    Ok(Outcome::Done)
}

/// The command `stage`: keeps a piece in an open edition under the next number. An equal piece under a number that stands
/// is accepted and changes nothing. Refused 51 where no edition has the name, 52 where the number isn't the next and no
/// equal piece has it, 54 where the edition has 4,096 pieces, 55 where it is published.
pub fn stage<S: Alter>(
    tx: &mut Transaction<'_, S>,
    edition: &Name,
    number: Id,
    piece: &Piece,
) -> Result<Outcome, Fault>
    ensures { Applies S.Store tx.old tx.new (commands.Stage edition.now number piece.now) result }
{
    stage_at(tx, edition.as_str(), number.get(), piece)
}
