//! What is answered to what is asked for.

ghost use Rattle.std.specs.Prelude.{◌≡◌, pos, IfErr, IfOk, Ok};
ghost use Rattle.mm_definitions.specs.Faults.{memory};
ghost use Rattle.mm_page.specs.Asked as page;
ghost use Rattle.mm_page.specs.Routes.{asked};
ghost use Rattle.mm_page.specs.Promised.{Replies};

use crate::lists::{mates_json, tables_json};
use crate::{Wanted, found, not_found};
use mm_definitions::answers::Fault;
use mm_definitions::names::Name;
use mm_definitions::places::TilePlace;
use mm_reads::Viewer;
use std::alloc::{AllocError, Global};

/// Want of memory is fault 90.
pub fn printed(made: Result<Vec<u8>, AllocError>) -> Result<Vec<u8>, Fault>
    ensures ok { IfOk result (λ v. made ≡ Ok v) }
    ensures err { IfErr result (λ f. f.0 ≡ memory.0) }
    ensures made { IfOk made (λ v. result ≡ Ok v) }
{
    match made {
        Ok(bytes) => Ok(bytes),
        Err(_) => Err(Fault::MEMORY),
    }
}

fn tile_reply<V: Viewer>(
    alloc: Global,
    viewer: &mut V,
    table: &Name,
    place: TilePlace,
) -> Result<Vec<u8>, Fault>
    ensures { Replies V.Viewer viewer.old viewer.new result
        (page.Tile table.now (pos place.zoom) (pos place.column) (pos place.row)) }
{
    match viewer.tile(table, place)? {
        Some(bytes) => printed(found(alloc, "application/octet-stream", &bytes)),
        None => printed(not_found(alloc)),
    }
}

fn media_reply<V: Viewer>(
    alloc: Global,
    viewer: &mut V,
    table: &Name,
    id: i64,
) -> Result<Vec<u8>, Fault>
    ensures { Replies V.Viewer viewer.old viewer.new result
        (page.Media table.now id) }
{
    match viewer.media(table, id)? {
        Some(media) => printed(found(alloc, media.content_type.as_str(), media.bytes.as_slice())),
        None => printed(not_found(alloc)),
    }
}

fn related_reply<V: Viewer>(
    alloc: Global,
    viewer: &mut V,
    table: &Name,
    id: i64,
) -> Result<Vec<u8>, Fault>
    ensures { Replies V.Viewer viewer.old viewer.new result
        (page.Related table.now id) }
{
    match viewer.related(table, id)? {
        Some(mates) => match mates_json(alloc, &mates) {
            Ok(text) => printed(found(alloc, "application/json", text.as_bytes())),
            Err(_) => Err(Fault::MEMORY),
        },
        None => printed(not_found(alloc)),
    }
}

fn contents_reply<V: Viewer>(alloc: Global, viewer: &mut V) -> Result<Vec<u8>, Fault>
    ensures { Replies V.Viewer viewer.old viewer.new result page.Contents }
{
    let tables = viewer.contents()?;
    match tables_json(alloc, &tables) {
        Ok(text) => printed(found(alloc, "application/json", text.as_bytes())),
        Err(_) => Err(Fault::MEMORY),
    }
}

/// The response to what is asked for.
pub fn reply<V: Viewer>(alloc: Global, viewer: &mut V, wanted: Wanted) -> Result<Vec<u8>, Fault>
    ensures { Replies V.Viewer viewer.old viewer.new result (asked wanted) }
{
    match wanted {
        Wanted::Tile { table, place } => tile_reply(alloc, viewer, &table, place),
        Wanted::Media { table, id } => media_reply(alloc, viewer, &table, id),
        Wanted::Related { table, id } => related_reply(alloc, viewer, &table, id),
        Wanted::Contents => contents_reply(alloc, viewer),
    }
}
