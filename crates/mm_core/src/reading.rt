//! What is read of the package of a session.

use crate::session::Session;
use mm_definitions::answers::Fault;
use mm_definitions::entries::{EditionState, Entry, Media, Related, Row};
use mm_definitions::names::Name;
use mm_definitions::places::TilePlace;
use mm_edition::edition;
use mm_reads::{contents, media, related, row, rows_from, tile};
use sqlite::Alter;

impl<S: Alter> Session<S> {
    ghost use Rattle.std.specs.Prelude.{◌≡◌, option_map};
    ghost use Rattle.std.specs.FinMap.{get};
    ghost use Rattle.mm_definitions.specs.Bounds.{current};
    ghost use Rattle.mm_definitions.specs.Keys.{item};
    ghost use Rattle.mm_definitions.specs.Places.{tile_at};
    ghost use Rattle.mm_store.specs.Seen.{IsRead};
    ghost use Rattle.mm_reads.specs.Told.{TellsBytes, shown_medium, shown_row};
    ghost use Rattle.mm_reads.specs.Contents.{ListsTables};
    ghost use Rattle.mm_reads.specs.Related.{TellsMates};
    ghost use Rattle.mm_reads.specs.RowLists.{TellsRows};
    ghost use Rattle.mm_definitions.specs.Standing.{TellsState};
    ghost use Rattle.mm_core.specs.Reads.{Reads};

    /// The bytes of the tile of a pyramid at a place, or None where none stands there. (Tile Pyramid User
    /// Data Tables.)
    ///
    /// 92 where the session has to be opened again, and then nothing is asked of the store. After another fault the session goes
    /// on, and the package and what may be left are as they were.
    pub fn tile(&mut self, table: &Name, place: TilePlace) -> Result<Option<Vec<u8>>, Fault>
        ensures { Reads S.Store self.old self.new result (λ old new. IsRead current old new
            (λ p found. TellsBytes (get p.tiles (tile_at table.now place)) found) result) }
    {
        self.ready()?;
        tile(&mut self.conn, table, place)
    }

    /// The medium of a media table that has an id, or None where none has it. (Media.)
    ///
    /// 92 where the session has to be opened again, and then nothing is asked of the store. After another fault the session goes
    /// on, and the package and what may be left are as they were.
    pub fn media(&mut self, table: &Name, id: i64) -> Result<Option<Media>, Fault>
        ensures { Reads S.Store self.old self.new result (λ old new. IsRead current old new
            (λ p found. get p.media (item table.now id) ≡ option_map shown_medium found) result) }
    {
        self.ready()?;
        media(&mut self.conn, table, id)
    }

    /// The row of an attribute table that has an id, or None where none has it. (Attributes.)
    ///
    /// 92 where the session has to be opened again, and then nothing is asked of the store. After another fault the session goes
    /// on, and the package and what may be left are as they were.
    pub fn row(&mut self, table: &Name, id: i64) -> Result<Option<Row>, Fault>
        ensures { Reads S.Store self.old self.new result (λ old new. IsRead current old new
            (λ p found. get p.rows (item table.now id) ≡ option_map shown_row found) result) }
    {
        self.ready()?;
        row(&mut self.conn, table, id)
    }

    /// The tables of the contents by rising name, each with its kind, identifier and last_change, and exactly the
    /// pyramids with their reference system and extent. (Contents.)
    ///
    /// 92 where the session has to be opened again, and then nothing is asked of the store. After another fault the session goes
    /// on, and the package and what may be left are as they were.
    pub fn contents(&mut self) -> Result<Vec<Entry>, Fault>
        ensures { Reads S.Store self.old self.new result (λ old new. IsRead current old new
            (λ p tables. ListsTables p tables.items) result) }
    {
        self.ready()?;
        contents(self.alloc, &mut self.conn)
    }

    /// What an attribute row or medium is related to, from the base of a relation to its related table only, ordered by mapping,
    /// related table and id; None where the table has no item of the id. (Related Tables Extension.)
    ///
    /// 92 where the session has to be opened again, and then nothing is asked of the store. After another fault the session goes
    /// on, and the package and what may be left are as they were.
    pub fn related(&mut self, table: &Name, id: i64) -> Result<Option<Vec<Related>>, Fault>
        ensures { Reads S.Store self.old self.new result (λ old new. IsRead current old new
            (λ p found. TellsMates p table.now id found) result) }
    {
        self.ready()?;
        related(self.alloc, &mut self.conn, table, id)
    }

    /// The rows of an attribute table from an id on, each with its id, by rising id and 1,000 at most; None where no attribute
    /// table has the name. (Attributes.)
    ///
    /// 92 where the session has to be opened again, and then nothing is asked of the store. After another fault the session goes
    /// on, and the package and what may be left are as they were.
    pub fn rows(&mut self, table: &Name, first: i64) -> Result<Option<Vec<(i64, Row)>>, Fault>
        ensures { Reads S.Store self.old self.new result (λ old new. IsRead current old new
            (λ p found. TellsRows p table.now first found) result) }
    {
        self.ready()?;
        rows_from(self.alloc, &mut self.conn, table, first)
    }

    /// How an edition stands, or None where none has the name: open with so many pieces, or published.
    ///
    /// 92 where the session has to be opened again, and then nothing is asked of the store. After another fault the session goes
    /// on, and the package and what may be left are as they were.
    pub fn edition(&mut self, name: &Name) -> Result<Option<EditionState>, Fault>
        ensures { Reads S.Store self.old self.new result (λ old new. IsRead current old new
            (λ p found. TellsState p name.now found) result) }
    {
        self.ready()?;
        edition(&mut self.conn, name)
    }
}
