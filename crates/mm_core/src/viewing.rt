//! A session as what the parts of a package that are shown are asked of.

ghost use Rattle.sqlite.specs.Held.{state};
ghost use Rattle.mm_core.specs.Parts.{connection};
ghost use Rattle.mm_core.specs.Parts as parts;

use crate::session::Session;
use mm_definitions::answers::Fault;
use mm_definitions::entries::{Entry, Media, Related, Row};
use mm_definitions::names::Name;
use mm_definitions::places::TilePlace;
use mm_reads::Viewer;
use sqlite::Alter;

impl<S: Alter> Viewer for Session<S> {
    ghost store = { λ s. state S.Store (connection s) };

    ghost has_failed = { λ s. parts.must_reopen s };

    fn tile(&mut self, table: &Name, place: TilePlace) -> Result<Option<Vec<u8>>, Fault> {
        self.tile(table, place)
    }

    fn media(&mut self, table: &Name, id: i64) -> Result<Option<Media>, Fault> {
        self.media(table, id)
    }

    fn related(&mut self, table: &Name, id: i64) -> Result<Option<Vec<Related>>, Fault> {
        self.related(table, id)
    }

    fn contents(&mut self) -> Result<Vec<Entry>, Fault> {
        self.contents()
    }

    fn rows(&mut self, table: &Name, first: i64) -> Result<Option<Vec<(i64, Row)>>, Fault> {
        self.rows(table, first)
    }
}
