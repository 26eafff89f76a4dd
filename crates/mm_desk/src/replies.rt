//! What a desk shows of a package to a path behind the key.

ghost use Rattle.std.specs.Prelude.{◌≡◌, option_map, IfErr, IfOk};
ghost use Rattle.mm_definitions.specs.Faults.{memory};
ghost use Rattle.mm_page.specs.Asked.{Media};
ghost use Rattle.mm_page.specs.Promised.{MakesResponse};
ghost use Rattle.mm_page.specs.Responses.{NotFound, response_of};
ghost use Rattle.mm_page.specs.Routes.{asked};
ghost use Rattle.mm_desk.specs.Replies.{AsksPart, IsReply, ShowsTo, desk_bytes, is_page, media_bytes, rows_reply_of};

use crate::lists::rows_json;
use crate::reads::Desk;
use crate::responses::boxed;
use crate::routes::rows_wanted;
use mm_definitions::answers::Fault;
use mm_definitions::names::Name;
use mm_page::{Wanted, found, not_found, printed, read_path, reply};
use std::alloc::Global;
use std::str::from_utf8;

/// The response to who asks for the rows of a table from an id on.
pub fn rows_reply<D: Desk>(
    alloc: Global,
    desk: &mut D,
    table: &Name,
    first: i64,
) -> Result<Vec<u8>, Fault>
    ensures { IsReply D.Viewer desk.old desk.new result
        (λ p. response_of (rows_reply_of p table.now first)) }
{
    match desk.rows(table, first)? {
        Some(rows) => match rows_json(alloc, &rows) {
            Ok(text) => printed(found(alloc, "application/json", text.as_bytes())),
            Err(_) => Err(Fault::MEMORY),
        },
        None => printed(not_found(alloc)),
    }
}

/// Whether a table is the page's own.
fn is_page_table(page: Option<&Name>, table: &Name) -> bool
    ensures { result ≡ is_page (option_map (λ name. name.now) page.entry) table.now }
{
    match page {
        Some(name) => name.as_str() == table.as_str(),
        None => false,
    }
}

/// A medium that a browser runs nothing of.
fn boxed_media<D: Desk>(
    alloc: Global,
    desk: &mut D,
    table: &Name,
    id: i64,
) -> Result<Vec<u8>, Fault>
    ensures { IsReply D.Viewer desk.old desk.new result (λ p. media_bytes p table.now id) }
{
    match desk.media(table, id)? {
        Some(media) => printed(boxed(alloc, media.content_type.as_str(), media.bytes.as_slice())),
        None => printed(not_found(alloc)),
    }
}

/// The response to who asks for a medium: one of another table than the page's is such that a browser runs nothing of it.
fn media_reply<D: Desk>(
    alloc: Global,
    desk: &mut D,
    page: Option<&Name>,
    table: Name,
    id: i64,
) -> Result<Vec<u8>, Fault>
    ensures { IsReply D.Viewer desk.old desk.new result
        (λ p. desk_bytes (option_map (λ name. name.now) page.entry) p (Media table id)) }
{
    if is_page_table(page, &table) {
        return reply(alloc, desk, Wanted::Media { table, id });
    }
    boxed_media(alloc, desk, &table, id)
}

/// The response to what is asked for: the page's own, but that a browser runs nothing of the media of other tables.
fn desk_reply<D: Desk>(
    alloc: Global,
    desk: &mut D,
    page: Option<&Name>,
    wanted: Wanted,
) -> Result<Vec<u8>, Fault>
    ensures { IsReply D.Viewer desk.old desk.new result
        (λ p. desk_bytes (option_map (λ name. name.now) page.entry) p (asked wanted)) }
{
    match wanted {
        Wanted::Media { table, id } => media_reply(alloc, desk, page, table, id),
        wanted => reply(alloc, desk, wanted),
    }
}

/// 404, where nothing is asked for.
fn nothing_found(alloc: Global) -> Result<Vec<u8>, Fault>
    ensures bytes { IfOk result (λ v. v.items ≡ response_of NotFound) }
    ensures memory { IfErr result (λ f. f.0 ≡ memory.0) }
{
    printed(not_found(alloc))
}

/// The response to a path of text.
fn show_text<D: Desk>(
    alloc: Global,
    desk: &mut D,
    page: Option<&Name>,
    path: &str,
) -> Result<Vec<u8>, Fault>
    ensures { MakesResponse D.Viewer desk.old desk.new result
        (ShowsTo (option_map (λ name. name.now) page.entry) path.now) (AsksPart path.now) }
{
    if let Some((table, first)) = rows_wanted(path) {
        return rows_reply(alloc, desk, &table, first);
    }
    match read_path(alloc, path) {
        Ok(Some(wanted)) => desk_reply(alloc, desk, page, wanted),
        Ok(None) => nothing_found(alloc),
        Err(fault) => Err(fault),
    }
}

/// The response to a path behind the key.
pub fn show<D: Desk>(
    alloc: Global,
    desk: &mut D,
    page: Option<&Name>,
    path: &[u8],
) -> Result<Vec<u8>, Fault>
    ensures { MakesResponse D.Viewer desk.old desk.new result
        (ShowsTo (option_map (λ name. name.now) page.entry) path.now) (AsksPart path.now) }
{
    match from_utf8(path) {
        Ok(text) => show_text(alloc, desk, page, text),
        Err(_) => nothing_found(alloc),
    }
}
