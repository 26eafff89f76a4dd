//! What the path of a request asks for.

ghost use Rattle.std.specs.Prelude.{◌≡◌, ℤ, pos, ◌≤ℤ◌, IfOk, IfErr, IfSome, MatchOption};
ghost use Rattle.std.specs.Str.{IsAscii};
ghost use Rattle.mm_definitions.specs.Bounds.{IsName, LastId};
ghost use Rattle.mm_definitions.specs.Faults.{memory};
ghost use Rattle.mm_definitions.specs.Keys.{Text};
ghost use Rattle.mm_page.specs.Asked.{IsRouted, SpellsWithin};
ghost use Rattle.mm_page.specs.Asked as page;
ghost use Rattle.mm_page.specs.Routes.{IsRowPath, TookText, TookRow, TookTile, asked, page_rows, tile_path};

use matchit::{InsertError, Params, Router};
use mm_definitions::answers::Fault;
use mm_definitions::limits::{LAST_ID, LAST_PLACE, LAST_ZOOM};
use mm_definitions::names::Name;
use mm_definitions::numbers::read_number;
use mm_definitions::places::TilePlace;
use std::alloc::Global;

/// What a route leads to.
#[derive(Clone, Copy, PartialEq, Eq, Debug)]
enum Route {
    Tile,
    Media,
    Related,
    Contents,
}

/// The routes of the page.
fn page_router(alloc: Global) -> Result<Router<Route>, InsertError>
    ensures { IfOk result (λ router. router ≡ page_rows) }
{
    let mut router = Router::new(alloc);
    router.insert("/tiles/{table}/{z}/{c}/{r}", Route::Tile)?;
    router.insert("/media/{table}/{id}", Route::Media)?;
    router.insert("/related/{table}/{id}", Route::Related)?;
    router.insert("/contents", Route::Contents)?;
    Ok(router)
}

/// What a path asks for.
#[derive(Drop)]
pub enum Wanted {
    /// A tile of a pyramid.
    Tile { table: Name, place: TilePlace },
    /// A medium of a media table.
    Media { table: Name, id: i64 },
    /// What an attribute row or medium is related to.
    Related { table: Name, id: i64 },
    /// The tables of the package.
    Contents,
}

fn name_of(params: &Params<'_, '_>, key: &str) -> Option<Name>
    ensures { (v : Text) → TookText params.now key.now v
        → MatchOption result (¬ (IsName v)) (λ name. (name ≡ v) × IsName v) }
{
    let text = params.get(key)?;
    Name::read(text)
}

fn number_of(params: &Params<'_, '_>, key: &str, least: i64, most: i64) -> Option<i64>
    ensures bounds { IfSome result (λ z. (least ≤ℤ z) × (z ≤ℤ most)) }
    ensures number { (v : Text) → TookText params.now key.now v
        → MatchOption result ((z : ℤ) → ¬ (SpellsWithin least most v z)) (λ z. SpellsWithin least most v z) }
{
    let text = params.get(key)?;
    match read_number(text, least, most) {
        Ok(n) => Some(n),
        Err(_) => None,
    }
}

fn tile_wanted(params: &Params<'_, '_>) -> Option<Wanted>
    ensures { (t z c r : Text) → TookTile params.now t z c r →
        MatchOption result ((w : page.Wanted) → ¬ (IsRouted (tile_path t z c r) w))
        (λ w. IsRouted (tile_path t z c r) (asked w)) }
{
    let Some(table) = name_of(params, "table") else {
        return None;
    };
    let Some(zoom) = number_of(params, "z", 0, LAST_ZOOM as i64) else {
        return None;
    };
    let Some(column) = number_of(params, "c", 0, LAST_PLACE as i64) else {
        return None;
    };
    let Some(row) = number_of(params, "r", 0, LAST_PLACE as i64) else {
        return None;
    };
    match TilePlace::new(zoom, column, row) {
        Some(place) => Some(Wanted::Tile { table, place }),
        None => unreachable!(),
    }
}

fn row_wanted(params: &Params<'_, '_>) -> Option<(Name, i64)>
    ensures { (t i : Text) → TookRow params.now t i → MatchOption result (¬ (IsRowPath t i))
        (λ r. (r.0 ≡ t) × IsName t × SpellsWithin (pos 1) (pos LastId) i r.1) }
{
    let Some(table) = name_of(params, "table") else {
        return None;
    };
    let Some(id) = number_of(params, "id", 1, LAST_ID as i64) else {
        return None;
    };
    Some((table, id))
}

/// What a path asks for by the page's routes, if anything.
fn find_route(router: &Router<Route>, path: &str) -> Option<Wanted>
    requires routes { router.now ≡ page_rows }
    requires ascii { IsAscii path.now }
    ensures { MatchOption result ((w : page.Wanted) → ¬ (IsRouted path.now w))
        (λ w. IsRouted path.now (asked w)) }
{
    let Ok(found) = router.at(path) else {
        return None;
    };
    match found.value {
        Route::Tile => tile_wanted(&found.params),
        Route::Media => match row_wanted(&found.params) {
            Some((table, id)) => Some(Wanted::Media { table, id }),
            None => None,
        },
        Route::Related => match row_wanted(&found.params) {
            Some((table, id)) => Some(Wanted::Related { table, id }),
            None => None,
        },
        Route::Contents => Some(Wanted::Contents),
    }
}

/// What a path asks for, or None where it takes no route, or a part of it is no name or number within its limits.
/// 90 where there is no memory for the routes.
pub fn read_path(alloc: Global, path: &str) -> Result<Option<Wanted>, Fault>
    ensures wanted { IfOk result
        (λ wanted. MatchOption wanted ((w : page.Wanted) → ¬ (IsRouted path.now w))
        (λ w. IsRouted path.now (asked w))) }
    ensures fault { IfErr result (λ f. f.0 ≡ memory.0) }
{
    if !path.is_ascii() {
        return Ok(None);
    }
    match page_router(alloc) {
        Ok(router) => Ok(find_route(&router, path)),
        Err(_) => Err(Fault::MEMORY),
    }
}
