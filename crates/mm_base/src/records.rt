//! Readers of the records of commands.

ghost use Rattle.std.specs.Prelude.{◌≡◌, IfOk, map, codes};
ghost use Rattle.mm_definitions.specs.Bounds.{current};
ghost use Rattle.mm_definitions.specs.Reading.{ReadsTo};
ghost use Rattle.mm_definitions.specs.Fields.{AllHold, IsAgainstSome};
ghost use Rattle.mm_definitions.specs.Records.{IsLeast, command_values, command_word, Spells, HoldsAgainst, HoldsAgainstPiece, SpellsPiece, IsMet, IsUnmet, stage_form};
ghost use Rattle.mm_definitions.specs.declared.commands.Command.TheVariants as commands;
ghost use Rattle.mm_definitions.specs.declared.commands.Piece.{Piece};
ghost use Rattle.mm_definitions.specs.Records as forms;
ghost use Rattle.mm_definitions.specs.Within.{IsWithin};

use crate::fields::{
    both, kind_field, name_field, positive_field, relation_field, signed_field, step_field,
    system_field,
};
use crate::pieces::read_piece;
use mm_definitions::answers::ReadFault;
use mm_definitions::commands::Command;
use mm_definitions::identifiers::Identifier;
use mm_definitions::refusals::Reason;
use mm_definitions::texts::{Definition, Remark, SystemName};
use std::alloc::Global;

/// `srs,ID,NAME,ORG,ORGID,DEFINITION,DESCRIPTION`
fn read_srs(alloc: Global, fields: &[&str]) -> Result<Command, ReadFault>
    ensures { ReadsTo (λ c. (command_word c ≡ codes "srs")
        × AllHold forms.srs_form (map (λ f. f.now) fields.now) (command_values c))
        (IsLeast (IsAgainstSome forms.srs_form (map (λ f. f.now) fields.now))) result }
{
    let [
        id,
        name,
        organization,
        organization_id,
        definition,
        description,
    ] = fields
    else {
        return Err(ReadFault::refused(Reason::NO_SUCH_RECORD));
    };
    let (id, (name, (organization, (organization_id, (definition, description))))) = both(
        positive_field(id),
        both(
            SystemName::read(alloc, name),
            both(
                SystemName::read(alloc, organization),
                both(
                    positive_field(organization_id),
                    both(
                        Definition::read(alloc, definition),
                        Remark::read(alloc, description),
                    ),
                ),
            ),
        ),
    )?;
    Ok(Command::Srs {
        id,
        name,
        organization,
        organization_id,
        definition,
        description,
    })
}

/// `pyramid,TABLE,IDENTIFIER,SRS,MINX,MINY,MAXX,MAXY,STEP`
fn read_pyramid(alloc: Global, fields: &[&str]) -> Result<Command, ReadFault>
    ensures { ReadsTo (λ c. (command_word c ≡ codes "pyramid")
        × AllHold (forms.pyramid_form current) (map (λ f. f.now) fields.now) (command_values c))
        (IsLeast (IsAgainstSome (forms.pyramid_form current)
        (map (λ f. f.now) fields.now))) result }
{
    let [table, identifier, srs, min_x, min_y, max_x, max_y, step] = fields else {
        return Err(ReadFault::refused(Reason::NO_SUCH_RECORD));
    };
    let (table, (identifier, (srs, (min_x, (min_y, (max_x, (max_y, step))))))) = both(
        name_field(table),
        both(
            Identifier::read(alloc, identifier),
            both(
                system_field(srs),
                both(
                    signed_field(min_x),
                    both(
                        signed_field(min_y),
                        both(
                            signed_field(max_x),
                            both(signed_field(max_y), step_field(step)),
                        ),
                    ),
                ),
            ),
        ),
    )?;
    Ok(Command::Pyramid {
        table,
        identifier,
        srs,
        min_x,
        min_y,
        max_x,
        max_y,
        step,
    })
}

/// `table,TABLE,KIND,IDENTIFIER`
fn read_table(alloc: Global, fields: &[&str]) -> Result<Command, ReadFault>
    ensures { ReadsTo (λ c. (command_word c ≡ codes "table")
        × AllHold forms.table_form (map (λ f. f.now) fields.now) (command_values c))
        (IsLeast (IsAgainstSome forms.table_form (map (λ f. f.now) fields.now))) result }
{
    let [table, kind, identifier] = fields else {
        return Err(ReadFault::refused(Reason::NO_SUCH_RECORD));
    };
    let (table, (kind, identifier)) = both(
        name_field(table),
        both(kind_field(kind), Identifier::read(alloc, identifier)),
    )?;
    Ok(Command::Table {
        table,
        kind,
        identifier,
    })
}

/// `drop,TABLE`
fn read_drop(fields: &[&str]) -> Result<Command, ReadFault>
    ensures { ReadsTo (λ c. (command_word c ≡ codes "drop")
        × AllHold forms.name_form (map (λ f. f.now) fields.now) (command_values c))
        (IsLeast (IsAgainstSome forms.name_form (map (λ f. f.now) fields.now))) result }
{
    let [table] = fields else {
        return Err(ReadFault::refused(Reason::NO_SUCH_RECORD));
    };
    let table = name_field(table)?;
    Ok(Command::Drop { table })
}

/// `relation,MAPPING,BASE,RELATED,NAME`
fn read_relation(fields: &[&str]) -> Result<Command, ReadFault>
    ensures { ReadsTo (λ c. (command_word c ≡ codes "relation")
        × AllHold forms.relation_form (map (λ f. f.now) fields.now) (command_values c))
        (IsLeast (IsAgainstSome forms.relation_form (map (λ f. f.now) fields.now))) result }
{
    let [mapping, base, related, name] = fields else {
        return Err(ReadFault::refused(Reason::NO_SUCH_RECORD));
    };
    let (mapping, (base, (related, name))) = both(
        name_field(mapping),
        both(
            name_field(base),
            both(name_field(related), relation_field(name)),
        ),
    )?;
    Ok(Command::Relation {
        mapping,
        base,
        related,
        name,
    })
}

/// `relation-drop,MAPPING`
fn read_relation_drop(fields: &[&str]) -> Result<Command, ReadFault>
    ensures { ReadsTo (λ c. (command_word c ≡ codes "relation-drop")
        × AllHold forms.name_form (map (λ f. f.now) fields.now) (command_values c))
        (IsLeast (IsAgainstSome forms.name_form (map (λ f. f.now) fields.now))) result }
{
    let [mapping] = fields else {
        return Err(ReadFault::refused(Reason::NO_SUCH_RECORD));
    };
    let mapping = name_field(mapping)?;
    Ok(Command::RelationDrop { mapping })
}

/// `edition,NAME`
fn read_edition(fields: &[&str]) -> Result<Command, ReadFault>
    ensures { ReadsTo (λ c. (command_word c ≡ codes "edition")
        × AllHold forms.name_form (map (λ f. f.now) fields.now) (command_values c))
        (IsLeast (IsAgainstSome forms.name_form (map (λ f. f.now) fields.now))) result }
{
    let [name] = fields else {
        return Err(ReadFault::refused(Reason::NO_SUCH_RECORD));
    };
    let name = name_field(name)?;
    Ok(Command::Edition { name })
}

/// `discard,NAME`
fn read_discard(fields: &[&str]) -> Result<Command, ReadFault>
    ensures { ReadsTo (λ c. (command_word c ≡ codes "discard")
        × AllHold forms.name_form (map (λ f. f.now) fields.now) (command_values c))
        (IsLeast (IsAgainstSome forms.name_form (map (λ f. f.now) fields.now))) result }
{
    let [name] = fields else {
        return Err(ReadFault::refused(Reason::NO_SUCH_RECORD));
    };
    let name = name_field(name)?;
    Ok(Command::Discard { name })
}

/// `publish,EDITION`
fn read_publish(fields: &[&str]) -> Result<Command, ReadFault>
    ensures { ReadsTo (λ c. (command_word c ≡ codes "publish")
        × AllHold forms.name_form (map (λ f. f.now) fields.now) (command_values c))
        (IsLeast (IsAgainstSome forms.name_form (map (λ f. f.now) fields.now))) result }
{
    let [edition] = fields else {
        return Err(ReadFault::refused(Reason::NO_SUCH_RECORD));
    };
    let edition = name_field(edition)?;
    Ok(Command::Publish { edition })
}

/// `rehearse,EDITION`
fn read_rehearse(fields: &[&str]) -> Result<Command, ReadFault>
    ensures { ReadsTo (λ c. (command_word c ≡ codes "rehearse")
        × AllHold forms.name_form (map (λ f. f.now) fields.now) (command_values c))
        (IsLeast (IsAgainstSome forms.name_form (map (λ f. f.now) fields.now))) result }
{
    let [edition] = fields else {
        return Err(ReadFault::refused(Reason::NO_SUCH_RECORD));
    };
    let edition = name_field(edition)?;
    Ok(Command::Rehearse { edition })
}

/// `stage,EDITION,NO,PIECE..`
fn read_stage(alloc: Global, fields: &[&str]) -> Result<Command, ReadFault>
    ensures { ReadsTo (λ c. (command_word c ≡ codes "stage")
        × IsMet (stage_form current (map (λ f. f.now) fields.now)) (map (λ f. f.now) fields.now)
        (command_values c))
        (IsLeast (IsUnmet (stage_form current (map (λ f. f.now) fields.now))
        (map (λ f. f.now) fields.now))) result }
{
    let [edition, number, piece @ ..] = fields else {
        return Err(ReadFault::refused(Reason::NO_SUCH_RECORD));
    };
    let (edition, (number, piece)) = both(
        name_field(edition),
        both(positive_field(number), read_piece(alloc, piece)),
    )?;
    Ok(Command::Stage {
        edition,
        number,
        piece,
    })
}

/// The command that the record of a piece spells.
fn read_edit(alloc: Global, fields: &[&str]) -> Result<Command, ReadFault>
    ensures { ReadsTo (λ c. (q : Piece) × (c ≡ commands.Edit q)
        × SpellsPiece current (map (λ f. f.now) fields.now) q)
        (IsLeast (HoldsAgainstPiece current (map (λ f. f.now) fields.now))) result }
{
    let piece = read_piece(alloc, fields)?;
    Ok(Command::Edit(piece))
}

/// The command that a record spells.
fn command_in(alloc: Global, fields: &[&str]) -> Result<Command, ReadFault>
    ensures { ReadsTo (Spells current (map (λ f. f.now) fields.now))
        (IsLeast (HoldsAgainst current (map (λ f. f.now) fields.now))) result }
{
    let [word, rest @ ..] = fields else {
        return Err(ReadFault::refused(Reason::NO_SUCH_RECORD));
    };
    match *word {
        "stage" => read_stage(alloc, rest),
        "srs" => read_srs(alloc, rest),
        "pyramid" => read_pyramid(alloc, rest),
        "table" => read_table(alloc, rest),
        "drop" => read_drop(rest),
        "relation" => read_relation(rest),
        "relation-drop" => read_relation_drop(rest),
        "edition" => read_edition(rest),
        "discard" => read_discard(rest),
        "publish" => read_publish(rest),
        "rehearse" => read_rehearse(rest),
        _ => read_edit(alloc, fields),
    }
}

/// The command that a record's fields spell. Else the least number that is against them: 10 where they are the
/// record of no command, 11 where a number or length is outside its limits, 12 where a name is none. Memory is
/// answered only for want of memory.
pub fn read_command(alloc: Global, fields: &[&str]) -> Result<Command, ReadFault>
    ensures reads { ReadsTo (Spells current (map (λ f. f.now) fields.now))
        (IsLeast (HoldsAgainst current (map (λ f. f.now) fields.now))) result }
    ensures within { IfOk result (IsWithin current) }
{
    command_in(alloc, fields)
}
